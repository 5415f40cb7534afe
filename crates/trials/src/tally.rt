// How many trials were made and how many of them came out right.
ghost use Rattle.std.specs.Prelude.{◌≡◌};
ghost use Rattle.trials.specs.Tallies.{one, both};

use std::fmt;
use std::iter::Sum;
use std::ops::Add;

#[derive(Clone, Copy, Debug, Default, PartialEq, Eq)]
pub struct Tally {
    pub made: usize,
    pub right: usize,
}

// One trial.
impl From<bool> for Tally {
    ghost from_gives = { λ right tally. tally ≡ one right };

    fn from(right: bool) -> Tally {
        Tally {
            made: 1,
            right: usize::from(right),
        }
    }
}

// The trials of both. No sum comes near to the largest number.
impl Add for Tally {
    type Output = Tally;

    ghost add_gives = { λ a b all. all ≡ both a b };

    fn add(self, other: Tally) -> Tally {
        Tally {
            made: self.made.saturating_add(other.made),
            right: self.right.saturating_add(other.right),
        }
    }
}

impl Sum<Tally> for Tally {
    fn sum<I: Iterator<Item = Tally>>(iter: I) -> Tally {
        iter.fold(Tally::default(), |all, one| all + one)
    }
}

impl fmt::Display for Tally {
    fn fmt<W: fmt::Write>(&self, f: &mut fmt::Formatter<W>) -> fmt::Result {
        write!(f, "{} of {} right", self.right, self.made)
    }
}
