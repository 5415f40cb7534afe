// The chambers of a sheet, and what a step asks of them: a step and the chambers are given one by one, as the
// definitions have them.
ghost use Rattle.std.specs.Prelude.{◌≡◌, true, ◌+◌, ◌≤◌, ◌<◌, get_or};
ghost use Rattle.chambers.specs.Chambers.{chamber, units_from, dealt, numbered, sum, part_of, plus, sizes_in};
ghost use Rattle.format.specs.Format.{unit_limit, chamber_count, sizes_list, limits_of};
ghost use Rattle.plans.specs.Switch.{sizes_of};
ghost use Rattle.sheet.specs.Few.{AtMost, Alone};

use super::Sheet;
use format::{ChamberSizes, ChamberStep};
use std::marker::Model;
use units::{Sizes, difference, feasible_sizes, intersection, is_subset, units_below};

// A chamber of a sheet: its number, from 0 on, and the set of its units.
#[derive(Clone, Copy)]
pub struct Chamber {
    pub number: usize,
    pub units: u64,
}

impl Model for Chamber {
    ghost use Rattle.std.specs.Prelude.{◌<◌};
    ghost use Rattle.chambers.specs.Chambers.{Chamber as Numbered, chamber};
    ghost use Rattle.format.specs.Format.{chamber_count};

    ghost Value = { Numbered };

    ghost view = { λ c. chamber c.number c.units };

    ghost inverse = { λ c. record { number = c.number; units = c.units } };

    ghost invariant = { λ c. c.number < chamber_count };
}

// The units of each chamber, as sets.
#[derive(Clone, Copy)]
pub struct Chambers {
    pub units: [u64; Sheet::CHAMBERS],
}

impl Chambers {
    // Chamber number c.
    pub fn at(self, c: usize) -> Chamber
        requires { c < chamber_count }
        ensures { result ≡ chamber c (get_or self.units c 0) }
    {
        Chamber {
            number: c,
            units: self.units[c],
        }
    }
}

// The k units from `first` on.
fn units_from(first: u32, k: u32) -> u64
    requires { first + k ≤ unit_limit }
    ensures { result ≡ units_from first k }
{
    difference(units_below(first + k), units_below(first))
}

// The chambers of so many units each, which are dealt out in order. The four are written out, as the four sizes are
// fields that have names.
#[tactic(auto, using(crate::proofs::FourParts::dealt_four), unfolding(chambers::specs::Chambers::sum))]
pub fn deal(z: ChamberSizes) -> Chambers
    requires { sum (sizes_list z) ≤ unit_limit }
    ensures { result.units ≡ dealt 0 (sizes_list z) }
{
    let second = u32::from(z.first);
    let third = second + u32::from(z.second);
    let fourth = third + u32::from(z.third);
    Chambers {
        units: [
            units_from(0, second),
            units_from(second, u32::from(z.second)),
            units_from(third, u32::from(z.third)),
            units_from(fourth, u32::from(z.fourth)),
        ],
    }
}

// The sizes of what a step asks of a chamber. Of an empty one nothing is counted.
pub fn part_sizes(x: ChamberStep, chamber: Chamber) -> Option<Sizes>
    ensures value { result ≡ sizes_of (part_of chamber (limits_of x)) }
    ensures at_most_64 { AtMost 64 result }
{
    let Chamber { number, units } = chamber;
    if units == 0 {
        return (x.least[number] == 0).then_some(Sizes { few: 0, many: 0 });
    }
    feasible_sizes(
        intersection(x.lower, units),
        intersection(x.upper, units),
        x.least[number],
        x.greatest[number],
    )
}

// The sizes of two parts together.
fn plus(a: Option<Sizes>, b: Option<Sizes>) -> Option<Sizes>
    requires a_at_most_1000 { AtMost 1000 a }
    requires b_at_most_1000 { AtMost 1000 b }
    ensures { result ≡ plus a b }
{
    let z = a?;
    let w = b?;
    Some(Sizes {
        few: z.few + w.few,
        many: z.many + w.many,
    })
}

// The least and the greatest size of a feasible set of a step, or that there is none.
pub fn sizes_in(x: ChamberStep, chambers: Chambers) -> Option<Sizes>
    ensures { result ≡ sizes_in (numbered 0 chambers.units) (limits_of x) }
{
    if !is_subset(x.lower, x.upper) {
        return None;
    }
    // Four calls, each to its end: with a loop, or with `?` here, a sheet with one chamber takes longer to read.
    let fourth = part_sizes(x, chambers.at(3));
    let third = plus(part_sizes(x, chambers.at(2)), fourth);
    let second = plus(part_sizes(x, chambers.at(1)), third);
    plus(part_sizes(x, chambers.at(0)), second)
}

// The same, where the first edition has its own code: its units are all in the first chamber, and nothing is asked of
// the others.
pub fn sizes_by(first: bool, x: ChamberStep, chambers: Chambers) -> Option<Sizes>
    requires { first ≡ true → Alone chambers.units x }
    ensures { result ≡ sizes_in (numbered 0 chambers.units) (limits_of x) }
{
    if !first {
        return sizes_in(x, chambers);
    }
    if !is_subset(x.lower, x.upper) {
        return None;
    }
    part_sizes(x, chambers.at(0))
}
