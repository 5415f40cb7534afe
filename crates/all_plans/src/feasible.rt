// Which sets are feasible in the steps of a small sheet: all 16 sets of 4 units are tried. The answers of a step are
// one word, with weight 2^s for set s.
ghost use Rattle.std.specs.Prelude.{◌<◌};

use super::small::{Chambers, size};
use trials::layout::Limits;

// Whether a set has in each chamber a number of units from the least to the greatest.
fn has_numbers(set: u64, chambers: &Chambers, limits: &Limits) -> bool {
    chambers
        .iter()
        .zip(&limits.least)
        .zip(&limits.greatest)
        .all(|((chamber, least), greatest)| {
            let on = size(set & *chamber);
            *least <= on && on <= *greatest
        })
}

// Whether a set meets the limits of a step.
fn is_within(set: u64, chambers: &Chambers, limits: &Limits) -> bool {
    limits.lower & !set == 0 && set & !limits.upper == 0 && has_numbers(set, chambers, limits)
}

// The answers of a step.
pub fn feasible_in(chambers: &Chambers, limits: &Limits) -> u16 {
    let mut answers = 0;
    for set in 0..16 {
        if is_within(set, chambers, limits) {
            answers |= 1 << set;
        }
    }
    answers
}

// Whether a set is feasible in the step of these answers. No other set than those tried is.
pub fn is_in(answers: u16, set: u64) -> bool {
    set < 16 && (answers >> set) % 2 == 1
}
