// The first units of a set, by the tie order, or by a look at a step.
ghost use Rattle.std.specs.Prelude.{◌≡◌, ◌≤◌, ◌<◌};
ghost use Rattle.units.specs.Sets.{difference, size};
ghost use Rattle.plans.specs.Support.{tie_order, members, first_in, taken};
ghost use Rattle.switch.specs.Toward.{toward};

use super::stretch::Stretch;
use units::{difference, highest, lowest, remove, size, union};

// The unit of s, which has one, that goes first in the tie order, or last. The higher number goes first: this is the
// house rule, and no other function knows it.
fn first_by_tie(s: u64, last: bool) -> u32
    requires { 0 < s }
    ensures { result ≡ first_in (toward last tie_order) (members s) }
{
    if last { lowest(s) } else { highest(s) }
}

// What the k units of s that go first in the tie order, or last, leave of it.
fn cleared(s: u64, k: u64, last: bool) -> u64
    requires { k ≤ size s }
    ensures { result ≡ difference s (taken (toward last tie_order) k s) }
{
    let mut rest = s;
    for _ in 0..k {
        rest = remove(rest, first_by_tie(rest, last));
    }
    rest
}

// The units that go first in an order, or last, as they are picked: those that were found, and how many are left to
// find in the rest.
#[derive(Clone, Copy)]
pub struct Pick {
    pub found: u64,
    pub rest: u64,
    pub left: u64,
    pub last: bool,
    pub ghost enough: { left ≤ size rest },
}

impl Pick {
    ghost use Rattle.switch.specs.Groups.{can_pass};
    ghost use Rattle.switch.specs.Looked.{picked, Looked};

    // The same with all units found.
    fn ended(self, found: u64) -> Pick
        ensures found { result.found ≡ found }
        ensures none_left { result.left ≡ 0 }
        ensures last { result.last ≡ self.last }
    {
        Pick {
            found,
            rest: 0,
            left: 0,
            last: self.last,
        }
    }

    // The units by the tie order. Of the rest those to be found are cleared, or the others are: whichever are fewer.
    pub fn by_tie(self) -> u64
        ensures { result ≡ picked tie_order self }
    {
        let others = size(self.rest) as u64 - self.left;
        if self.left < others {
            let without = cleared(self.rest, self.left, self.last);
            return union(self.found, difference(self.rest, without));
        }
        union(self.found, cleared(self.rest, others, !self.last))
    }

    // Whether the units to be found are the whole group of a stretch that goes first and, beyond it, only undecided
    // ones.
    pub fn can_pass(self, s: Stretch) -> bool
        ensures { result ≡ can_pass self.last s.lower s.upper self.rest self.left }
    {
        let undecided = s.undecided(self.rest);
        if undecided == self.rest {
            return true;
        }
        let many = size(s.group(self.rest, self.last)) as u64;
        if self.left < many {
            return false;
        }
        self.left - many <= size(undecided) as u64
    }

    // Finds the units that the sets of a step decide, or of some steps taken as one. Those left to be found go first
    // in the ranking from the step after them on. Where the sets decide nothing about the rest, nothing is counted.
    pub fn look(self, s: Stretch) -> Pick
        ensures { Looked s self result }
    {
        let later = s.undecided(self.rest);
        if later == self.rest {
            return self;
        }
        let first = s.group(self.rest, self.last);
        let many = size(first) as u64;
        if self.left <= many {
            let among = Pick {
                found: self.found,
                rest: first,
                left: self.left,
                last: self.last,
            };
            return self.ended(among.by_tie());
        }
        let after = self.left - many;
        let others = size(later) as u64;
        if others <= after {
            let end = Pick {
                found: union(self.found, union(first, later)),
                rest: s.group(self.rest, !self.last),
                left: after - others,
                last: self.last,
            };
            return self.ended(end.by_tie());
        }
        Pick {
            found: union(self.found, first),
            rest: later,
            left: after,
            last: self.last,
        }
    }
}
