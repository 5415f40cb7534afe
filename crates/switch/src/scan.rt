// The first units of a set by rank: a scan looks at the steps ahead, at a block of sixteen at once where it can.
ghost use Rattle.std.specs.Prelude.{◌≡◌, ◌-◌, ◌≤◌, ◌<◌, length, true, false};
ghost use Rattle.plans.specs.Steps.{step_at, step_limit, ranking_at};
ghost use Rattle.plans.specs.Support.{support_set};
ghost use Rattle.plans.specs.Switch.{Satisfiable};
ghost use Rattle.units.specs.Limits.{has_feasible};
ghost use Rattle.units.specs.Sets.{difference, size};
ghost use Rattle.switch.specs.Looked.{picked, Ahead};
ghost use Rattle.switch.specs.Stretches.{Blocks};

use super::pick::Pick;
use super::stretch::{BLOCK, BLOCKS, Stretch};
use plans::Limits;
use units::{difference, intersection, size, union};

// The steps of a chamber, with each block of them taken as one, so that a block can be passed with one look.
#[derive(Clone, Copy)]
pub struct Scan<'a> {
    pub steps: &'a [Limits],
    pub blocks: &'a [Stretch; BLOCKS],
    pub ghost few: { length steps.now ≤ step_limit },
    pub ghost in_blocks: { Blocks steps.now blocks.now },
}

// The units to pick for a step that is begun with these: those that leave, which are the last, or else those that
// join.
fn change(s: Limits, begun: u64) -> Pick
    requires { has_feasible s.lower s.upper s.least s.greatest ≡ true }
    ensures found { result.found ≡ 0 }
    ensures leaving { s.greatest < size begun →
        (result.last ≡ true) × (result.rest ≡ difference begun s.lower) × (result.left ≡ size begun - s.greatest) }
    ensures joining { size begun ≤ s.greatest →
        (result.last ≡ false) × (result.rest ≡ difference s.upper begun) × (result.left ≡ s.least - size begun) }
{
    let many = size(begun) as u64;
    if s.greatest < many {
        return Pick {
            found: 0,
            rest: difference(begun, s.lower),
            left: many - s.greatest,
            last: true,
        };
    }
    Pick {
        found: 0,
        rest: difference(s.upper, begun),
        left: s.least.saturating_sub(many),
        last: false,
    }
}

impl<'a> Scan<'a> {
    // What a scan looks at next, which is the block that begins at j, if the pick can pass it, or else the step at j;
    // and the place after it.
    fn ahead(self, j: usize, pick: Pick) -> (Stretch, usize)
        requires { j < length self.steps.now }
        ensures { Ahead self.entry.steps.now j pick result.0 result.1 }
    {
        if j % BLOCK == 0 {
            let block = self.blocks[j / BLOCK];
            if pick.can_pass(block) {
                return (block, (j + BLOCK).min(self.steps.len()));
            }
        }
        let s = self.steps[j];
        let step = Stretch {
            lower: s.lower,
            upper: s.upper,
        };
        (step, j + 1)
    }

    // The units of a pick by the ranking of the steps from the one at `from` on.
    pub fn by_rank(self, from: usize, pick: Pick) -> u64
        requires { from ≤ length self.steps.now }
        ensures { result ≡ picked (ranking_at self.entry.steps.now from) pick }
    {
        let mut pick = pick;
        let mut j = from;
        // no `for`, since a turn may pass a block
        while 0 < pick.left {
            if j == self.steps.len() {
                return pick.by_tie();
            }
            let (stretch, next) = self.ahead(j, pick);
            pick = pick.look(stretch);
            j = next;
        }
        pick.found
    }

    // What is on in the step at i, where `before` was on. It begins as what was on and may be, with what must be; then
    // units leave it, or join it, never both.
    pub fn step_set(self, i: usize, before: u64) -> u64
        requires satisfiable { Satisfiable self.steps.now }
        requires i_in_bounds { i < length self.steps.now }
        ensures { result ≡ support_set (ranking_at self.entry.steps.now i) (step_at self.entry.steps.now i) before }
    {
        let s = self.steps[i];
        let begun = union(intersection(before, s.upper), s.lower);
        let change = change(s, begun);
        if change.left == 0 {
            return begun;
        }
        let picked = self.by_rank(i, change);
        if change.last {
            difference(begun, picked)
        } else {
            union(begun, picked)
        }
    }
}
