// The chart where the bound leaves two switches or more to spare: each word is read from its own step alone.
ghost use Rattle.std.specs.Prelude.{◌≡◌, ◌≤◌, length};
ghost use Rattle.std.proofs.lemmas.List.Edits.{sets};
ghost use Rattle.plans.specs.Steps.{step_at};
ghost use Rattle.tables.specs.Tables.{ample_on, ample_off};
ghost use Rattle.chart.specs.Joining.{joining};

use plans::Limits;
use units::{choose, difference, size, union};

// The units that some set has that the step allows: all that may be on, if there is room for one more than must be on,
// or those that must.
#[tactic(auto, unfolding(tables::specs::Tables::ample_on))]
fn ample_on(s: Limits) -> u64
    ensures { result ≡ ample_on s }
{
    choose((size(s.lower) as u64) < s.greatest, s.upper, s.lower)
}

// The units of us that some set lacks that the step allows: all that need not be on, if one less than may be on is
// enough, or those that may not be.
#[tactic(auto, unfolding(tables::specs::Tables::ample_off))]
fn ample_off(us: u64, s: Limits) -> u64
    ensures { result ≡ ample_off us s }
{
    difference(us, choose(s.least < size(s.upper) as u64, s.lower, s.upper))
}

// Joins the words of all steps to the outputs: the units that some set has that the step allows, and those of us that
// some set lacks.
pub fn ample(steps: &[Limits], us: u64, on: &mut [u64], off: &mut [u64])
    requires room_in_on { length steps.now ≤ length on.old }
    requires room_in_off { length steps.now ≤ length off.old }
    ensures on_after { on.new ≡
        sets on.old 0 (joining (λ i. ample_on (step_at steps.now i)) on.old 0 (length steps.now)) }
    ensures off_after { off.new ≡
        sets off.old 0 (joining (λ i. ample_off us (step_at steps.now i)) off.old 0 (length steps.now)) }
{
    for i in (0..steps.len()).rev() {
        on[i] = union(ample_on(steps[i]), on[i]);
        off[i] = union(ample_off(us, steps[i]), off[i]);
    }
}
