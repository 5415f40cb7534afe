// Lists all plans of thousands of small sheets, one by one, and holds the library's plans, verdicts and charts to
// what the listing finds. It writes, for each edition of the sheet, how many were tried and how many of these were
// right.
#![tactic(auto)]

mod charts;
mod feasible;
mod handed;
mod limits;
mod listed;
mod numbered;
mod small;
mod tallies;
mod trial;
mod verdicts;

use listed::list;
use small::{Small, sets_of};
use std::io;
use tallies::Tallies;
use trial::Trial;
use trials::layout::Edition;
use trials::tally::Tally;

// How many times the limits of the steps are drawn for each edition. Each time is tried with every start set, and
// with each of these with up to 4 bounds.
const CASES: usize = 1740;

// Tries a sheet: the plan and the chart, and the verdicts where it is not large, for a large one has too many plans.
fn try_sheet(trial: &Trial) -> Tallies {
    let handed_out = Tallies {
        plans: handed::try_reply(trial),
        plans_refused: handed::try_refusal(trial),
        charts: charts::try_reply(trial),
        charts_refused: charts::try_refusal(trial),
        cells: charts::try_cells(trial),
        ..Tallies::default()
    };
    if trial.sheet.large {
        return handed_out;
    }
    Tallies {
        verdicts: verdicts::try_plans(trial),
        unit_more: verdicts::try_unit_more(trial),
        lengths: verdicts::try_lengths(trial),
        ..handed_out
    }
}

// Tries a sheet with that bound.
fn try_bound(sheet: &Small, fewest: u16, bound: u16) -> Tallies {
    let bytes = sheet.bytes(bound);
    try_sheet(&Trial {
        sheet,
        bytes: bytes.whole(),
        fewest,
        bound,
    })
}

// Tries a sheet with the bounds from one below the fewest switches to two above them.
fn try_bounds(sheet: &Small, fewest: u16) -> Tallies {
    (fewest.saturating_sub(1)..fewest.saturating_add(3))
        .map(|bound| try_bound(sheet, fewest, bound))
        .sum()
}

// Lists the plans of a sheet, and tries it. Each sheet has a feasible plan: it is a wrong trial where none is listed.
fn try_listed(sheet: &Small) -> Tallies {
    let listed = list(sheet);
    let plans = Tallies {
        listed: listed.plans,
        ..Tallies::default()
    };
    match listed.fewest {
        Some(fewest) => plans + try_bounds(sheet, fewest),
        None => Tallies {
            plans: Tally::from(false),
            ..plans
        },
    }
}

// Tries a case in that edition with every start set.
fn try_case(edition: Edition, case: usize) -> Tallies {
    let sheet = Small::of(edition, case);
    (0..sets_of(sheet.units))
        .map(|start| try_listed(&sheet.with_start(start)))
        .sum()
}

// Tries all cases in that edition.
fn try_cases(edition: Edition) -> Tallies {
    (0..CASES).map(|case| try_case(edition, case)).sum()
}

// Tries both editions, and writes how they came out, and how many trials are not right.
fn main(rt: HostRuntime) -> io::Result<()> {
    let first = try_cases(Edition::First);
    let second = try_cases(Edition::Second);
    let all = (first + second).all();
    println!(rt; "edition 1\n{first}")?;
    println!(rt; "edition 2\n{second}")?;
    println!(rt; "both editions: {all}")?;
    println!(rt; "differences: {}", all.made.saturating_sub(all.right))
}
