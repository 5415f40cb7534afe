// The small sheets, each named by its edition and the number of its case: 1 to 4 units and at most 6 steps. The
// chambers and the limits of their steps are drawn from the number of the case.
ghost use Rattle.std.specs.Prelude.{◌<◌, ◌≤◌};

use super::feasible::feasible_in;
use super::limits::all_limits;
use trials::draws::Draws;
use trials::layout::{Edition, Head, Limits, SheetBytes};

// The units of each chamber.
pub type Chambers = [u64; 4];

// A small sheet but for its bound: the edition and whether the case is large, its numbers, its chambers and the
// limits of its steps, and the sets that are feasible in each step (`feasible`).
#[derive(Clone, Copy, Debug)]
pub struct Small {
    pub edition: Edition,
    pub large: bool,
    pub units: usize,
    pub steps: usize,
    pub start: u64,
    pub chambers: Chambers,
    pub limits: [Limits; 6],
    pub feasible: [u16; 6],
    ghost units_within: { units ≤ 4 },
    ghost steps_within: { steps ≤ 6 },
}

// What the chambers are drawn for.
const DEALT: usize = 14;

// The cases before this one are of every size, and those from it on are large: 3 or 4 units, and 4 to 6 steps.
const LARGE: usize = 240;

// The number of units, each as often as the others.
fn units_of(case: usize) -> usize
    ensures result_nonzero { 0 < result }
    ensures upper_bound { result ≤ 4 }
{
    if LARGE <= case {
        return 3 + case % 2;
    }
    1 + case % 4
}

// The number of steps: in a large case 4 or 5, or up to 6 where there are 3 units, else 0 to 4, and 5 where there
// are few units.
fn steps_of(case: usize) -> usize
    ensures { result ≤ 6 }
{
    if LARGE <= case {
        if units_of(case) == 3 {
            return 4 + case / 2 % 3;
        }
        return 4 + case / 2 % 2;
    }
    if units_of(case) <= 2 {
        return case / 4 % 6;
    }
    case / 4 % 5
}

// How many sets of that many units there are, of 4 at the most.
pub fn sets_of(units: usize) -> u64
    ensures result_nonzero { 0 < result }
    ensures upper_bound { result ≤ 16 }
{
    1 << units.min(4)
}

// The set of that many units, the first ones.
pub fn all_units(units: usize) -> u64 {
    sets_of(units) - 1
}

// How many of 4 units are in a set.
pub fn size(set: u64) -> u8
    ensures { result ≤ 4 }
{
    (set % 16).count_ones() as u8
}

// The chambers of edition 2: the units are dealt out in order, and where the first three chambers end is drawn, the
// second's end first.
fn dealt(units: usize, case: usize) -> Chambers
    requires { units ≤ 4 }
{
    let draws = Draws { case, step: 0 };
    let middle = draws.below(units + 1, DEALT);
    let first = draws.below(middle + 1, DEALT + 1);
    let last = middle + draws.below(units - middle + 1, DEALT + 2);
    [
        all_units(first),
        all_units(middle) & !all_units(first),
        all_units(last) & !all_units(middle),
        all_units(units) & !all_units(last),
    ]
}

// The chambers of a case in that edition. In edition 1 all units are in the first.
fn chambers_of(edition: Edition, case: usize) -> Chambers {
    let units = units_of(case);
    match edition {
        Edition::First => [all_units(units), 0, 0, 0],
        Edition::Second => dealt(units, case),
    }
}

impl Small {
    // The sheet of a case in that edition, with no unit in the start set.
    pub fn of(edition: Edition, case: usize) -> Small {
        let units = units_of(case);
        let chambers = chambers_of(edition, case);
        let limits = all_limits(all_units(units), &chambers, case);
        Small {
            edition,
            large: LARGE <= case,
            units,
            steps: steps_of(case),
            start: 0,
            chambers,
            limits,
            feasible: limits.map(|step| feasible_in(&chambers, &step)),
        }
    }

    // The sheet with that start set.
    pub fn with_start(mut self, start: u64) -> Small {
        self.start = start;
        self
    }

    // The sheet with a unit more, which is in no chamber and which none of its steps allows.
    pub fn with_unit(mut self) -> Small {
        self.units = self.units % 4 + 1;
        self
    }

    // Its bytes, with that bound.
    pub fn bytes(&self, bound: u16) -> SheetBytes {
        let head = Head {
            units: self.units as u8,
            records: self.steps as u16,
            bound,
            start: self.start,
            sizes: self.chambers.map(size),
        };
        let mut bytes = SheetBytes::new(self.edition, head);
        bytes.put_steps(&self.limits);
        bytes
    }
}
