// Tries the listings on sheets whose text is written out by hand (no bytes, no step, a bound that is too small, a
// chain that leads back, units in two chambers, an input that is too long, and full sheets with numbers of the most
// digits), and writes how often they were right.
#![tactic(auto)]

mod lines;

use lines::{Halves, InTurns, is_printed};
use std::{fmt, io};
use trials::layout::{Edition, Head, Limits, RECORDS, SheetBytes, UNITS};
use trials::tally::Tally;

// Tries the listing of a sheet, of which the text is given.
fn try_plan(sheet: &[u8], expected: &(impl fmt::Display)) -> Tally {
    let mut text = [0u8; listing::LONGEST];
    let count = listing::list_plan(sheet, &mut text);
    Tally::from(is_printed(&text[..count], expected))
}

// Tries the listing of its sizes.
fn try_sizes(sheet: &[u8], expected: &(impl fmt::Display)) -> Tally {
    let mut text = [0u8; listing::LONGEST_SIZES];
    let count = listing::list_sizes(sheet, &mut text);
    Tally::from(is_printed(&text[..count], expected))
}

// Tries both, of which the texts are given.
fn try_both(sheet: &[u8], plan: &str, sizes: &str) -> Tally {
    try_plan(sheet, &plan) + try_sizes(sheet, &sizes)
}

// Tries a sheet that gets that refusal.
fn try_refused(sheet: &[u8], refusal: &str) -> Tally {
    try_both(sheet, refusal, refusal)
}

// Tries no bytes at all.
fn try_nothing() -> Tally {
    try_refused(&[], "refused 1 0\n")
}

// Tries a sheet without a step, which has no size.
fn try_no_step() -> Tally {
    let head = Head {
        units: 1,
        ..Head::default()
    };
    let sheet = SheetBytes::new(Edition::First, head);
    try_both(sheet.whole(), "units 1 steps 0 bound 0\ntotal 0\n", "")
}

// The limits of a step that needs one of three units and allows two.
fn run(lower: u64) -> Limits {
    Limits {
        lower,
        upper: 7,
        least: [0; 4],
        greatest: [2; 4],
    }
}

// Four runs, which need three switches, with a bound of two (bench B2).
fn four_runs() -> SheetBytes {
    let head = Head {
        units: 3,
        records: 4,
        bound: 2,
        ..Head::default()
    };
    let mut sheet = SheetBytes::new(Edition::First, head);
    sheet.put_steps(&[run(1), run(2), run(4), run(1)]);
    sheet
}

// Tries them: the sizes are listed whatever the bound is.
fn try_bound() -> Tally {
    let sizes = "1 1 2\n2 1 2\n3 1 2\n4 1 2\n";
    try_both(four_runs().whole(), "refused 9 3\n", sizes)
}

// Tries them with a link from the last step back to the second.
fn try_link_back() -> Tally {
    let mut sheet = four_runs();
    sheet.put_link(4, 2);
    try_refused(sheet.whole(), "refused 5 4\n")
}

// Tries a sheet of edition 2 with two units in chamber 1 and in chamber 3, and two steps in which just one unit of
// both must be on. The empty chambers ask for none.
fn try_chambers() -> Tally {
    let head = Head {
        units: 4,
        records: 2,
        bound: 2,
        sizes: [2, 0, 2, 0],
        ..Head::default()
    };
    let one_of_each = Limits {
        lower: 0,
        upper: 15,
        least: [1, 0, 1, 0],
        greatest: [1, 7, 1, 7],
    };
    let mut sheet = SheetBytes::new(Edition::Second, head);
    sheet.put_steps(&[one_of_each]);
    let plan = "units 4 steps 2 bound 2\n1 000000000000000a 2\n2 000000000000000a 0\ntotal 2\n";
    try_both(sheet.whole(), plan, "1 2 2\n2 2 2\n")
}

// ---- full sheets

// The bytes of a full sheet of edition 1, and of the longest sheet.
const FULL: usize = 6168;

const LONGEST: usize = 8216;

// A sheet of 64 units and 256 steps, with two kinds of limits in turns.
fn full(odd: Limits, even: Limits) -> SheetBytes {
    let head = Head {
        units: UNITS,
        records: RECORDS as u16,
        bound: u16::MAX,
        ..Head::default()
    };
    let mut sheet = SheetBytes::new(Edition::First, head);
    sheet.put_steps(&[odd, even]);
    sheet
}

// The limits of a step that allows one set.
fn just(set: u64) -> Limits {
    Limits {
        lower: set,
        upper: set,
        least: [0; 4],
        greatest: [UNITS; 4],
    }
}

// A full sheet in which the two halves of the units are on in turns, so that each step has 32 switches.
fn halves() -> SheetBytes {
    full(just(u64::MAX >> 32), just(u64::MAX << 32))
}

// Tries it.
fn try_halves() -> Tally {
    let sizes = InTurns {
        odd: (32, 32),
        even: (32, 32),
    };
    let sheet = halves();
    try_plan(sheet.whole(), &Halves) + try_sizes(sheet.whole(), &sizes)
}

// Tries the same with one byte more, and with one more than any sheet has.
fn try_too_long() -> Tally {
    let sheet = halves();
    try_refused(sheet.first(FULL + 1), "refused 3 24\n")
        + try_refused(sheet.first(LONGEST + 1), "refused 1 0\n")
}

// The limits of a step in which all units may be on.
fn any_of(lower: u64, least: u8, greatest: u8) -> Limits {
    Limits {
        lower,
        upper: u64::MAX,
        least: [least; 4],
        greatest: [greatest; 4],
    }
}

// Tries a full sheet in which 32 to 64 units may be on and 10 or 11, in turns.
fn try_many_sizes() -> Tally {
    let sizes = InTurns {
        odd: (32, 64),
        even: (10, 11),
    };
    let sheet = full(any_of(u64::MAX >> 32, 0, u8::MAX), any_of(0, 10, 11));
    try_sizes(sheet.whole(), &sizes)
}

fn main(rt: HostRuntime) -> io::Result<()> {
    let tries = [
        try_nothing(),
        try_no_step(),
        try_bound(),
        try_link_back(),
        try_chambers(),
        try_halves(),
        try_too_long(),
        try_many_sizes(),
    ];
    let all: Tally = tries.into_iter().sum();
    println!(rt; "listings: {all}")
}
