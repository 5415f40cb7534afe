// The limits of the steps of a small sheet, drawn from the number of the case.
ghost use Rattle.std.specs.Prelude.{◌<◌, ◌≤◌};

use super::small::{Chambers, size};
use std::array;
use trials::draws::Draws;
use trials::layout::Limits;

// What the numbers are drawn for.
const BANNED: usize = 10;

const LOWER: usize = 12;

const LEAST: usize = 20;

const GREATEST: usize = 30;

// The units that a step bans: none about every second time, else some of them.
fn banned(units: u64, draws: Draws) -> u64 {
    if draws.below(2, BANNED) == 0 {
        return 0;
    }
    units & draws.set(BANNED) & draws.set(BANNED + 1)
}

// The least and the greatest number of units on in a chamber.
#[derive(Clone, Copy, Debug)]
struct Numbers {
    least: u8,
    greatest: u8,
}

// One more than the greatest number drawn for a chamber, whose upper set is given: any byte where none of its units
// may be on.
fn limit_of(upper: u64) -> usize
    ensures lower_bound { 4 < result }
    ensures upper_bound { result ≤ 256 }
{
    if upper == 0 { 256 } else { 5 }
}

// The numbers of chamber c, from 0: some set between the lower and the upper set, which have units of that chamber
// only, is within them.
fn numbers_of(lower: u64, upper: u64, draws: Draws, c: usize) -> Numbers
    requires { c ≤ 3 }
{
    let drawn = draws.between(0, usize::from(size(upper)), LEAST + c);
    let least = drawn.max(usize::from(size(lower)));
    let greatest = least + draws.below(limit_of(upper) - least, GREATEST + c);
    Numbers {
        least: least as u8,
        greatest: greatest as u8,
    }
}

// The limits of a step: some set is within them.
fn limits_of(units: u64, chambers: &Chambers, draws: Draws) -> Limits {
    let upper = units & !banned(units, draws);
    let lower = upper & draws.set(LOWER) & draws.set(LOWER + 1);
    let numbers: [Numbers; 4] = array::from_fn(|c| numbers_of(
        lower & chambers[c],
        upper & chambers[c],
        draws,
        c,
    ));
    Limits {
        lower,
        upper,
        least: numbers.map(|chamber| chamber.least),
        greatest: numbers.map(|chamber| chamber.greatest),
    }
}

// The limits of all steps.
pub fn all_limits(units: u64, chambers: &Chambers, case: usize) -> [Limits; 6] {
    array::from_fn(|k| limits_of(units, chambers, Draws { case, step: k + 1 }))
}
