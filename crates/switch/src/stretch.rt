// Steps on end taken as one: the units that some of them requires, and those that none forbids before one requires
// them. These two sets part the units that are left into groups: required, forbidden and undecided.
ghost use Rattle.std.specs.Prelude.{◌≡◌, ◌≤◌, length};
ghost use Rattle.plans.specs.Steps.{step_limit};
ghost use Rattle.switch.specs.Groups.{undecided, group};
ghost use Rattle.switch.specs.Stretches.{as_one, Blocks};

use plans::Limits;
use units::{ALL, difference, intersection, union};

// The two sets of a step, or of some steps on end taken as one: the units that some of them requires, and those that
// none forbids before one requires them.
#[derive(Clone, Copy)]
pub struct Stretch {
    pub lower: u64,
    pub upper: u64,
}

impl Stretch {
    // Two empty sets, which fill places that no block was put into yet.
    pub const NONE: Stretch = Stretch { lower: 0, upper: 0 };

    // Some steps on end.
    pub fn of(steps: &[Limits]) -> Stretch
        ensures { result ≡ as_one steps.now }
    {
        let mut lower = 0;
        let mut upper = ALL;
        for s in steps.iter().rev() {
            lower = union(s.lower, lower);
            upper = intersection(s.upper, union(s.lower, upper));
        }
        Stretch { lower, upper }
    }

    // The units of `rest` that it leaves undecided.
    pub fn undecided(self, rest: u64) -> u64
        ensures { result ≡ undecided self.lower self.upper rest }
    {
        difference(intersection(rest, self.upper), self.lower)
    }

    // The units of `rest` that it forbids, or those that it requires.
    pub fn group(self, rest: u64, forbids: bool) -> u64
        ensures { result ≡ group forbids self.lower self.upper rest }
    {
        if forbids {
            difference(rest, self.upper)
        } else {
            intersection(intersection(rest, self.upper), self.lower)
        }
    }
}

// The steps of a block of the scan; the last block may have fewer. (The blocks of `forward` are its own.)
pub const BLOCK: usize = 16;

// The most blocks.
pub const BLOCKS: usize = Limits::STEPS / BLOCK;

// Puts each block of some steps, taken as one.
pub fn fill_blocks(steps: &[Limits], blocks: &mut [Stretch; BLOCKS])
    requires { length steps.now ≤ step_limit }
    ensures { Blocks steps.now blocks.new }
{
    for (q, part) in steps.chunks(BLOCK).enumerate() {
        blocks[q] = Stretch::of(part);
    }
}
