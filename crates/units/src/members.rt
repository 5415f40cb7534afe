// The units of a set, one by one, the lowest first.
ghost use Rattle.std.specs.Prelude.{◌≡◌};
ghost use Rattle.std.specs.Iterator.{at_most};
ghost use Rattle.units.specs.Sets.{size};
ghost use Rattle.units.specs.Members.{TakesLowest};

use crate::{lowest, without_lowest};
use std::marker::Model;

// The units of a set that are still to come, seen as that set.
#[derive(Drop)]
pub struct Units {
    left: u64,
}

impl Model for Units {
    ghost use Rattle.std.specs.Prelude.{ℕ, ◌<◌, ◌^◌};

    ghost Value = { ℕ };

    ghost view = { λ units. units.left };

    ghost invariant = { λ units. units.left < 2 ^ 64 };
}

impl Units {
    // All units of a set.
    pub fn of(set: u64) -> Units
        ensures { result ≡ set }
    {
        Units { left: set }
    }
}

impl Iterator for Units {
    type Item = u32;

    ghost next_gives = { TakesLowest };

    ghost remaining = { λ left. at_most (size left) };

    fn next(&mut self) -> Option<u32> {
        if self.left == 0 {
            return None;
        }
        let lowest = lowest(self.left);
        self.left = without_lowest(self.left);
        Some(lowest)
    }
}
