// The plan that is handed out (FindSupport).
ghost use Rattle.std.specs.Prelude.{◌≡◌, ◌≤◌, length};
ghost use Rattle.std.proofs.lemmas.List.Edits.{sets};
ghost use Rattle.plans.specs.Steps.{step_limit};
ghost use Rattle.plans.specs.Plans.{joined};
ghost use Rattle.plans.specs.Support.{find_support};
ghost use Rattle.plans.specs.Switch.{Satisfiable, total};

use super::scan::Scan;
use super::stretch::{BLOCKS, Stretch, fill_blocks};
use plans::Limits;
use units::{difference, size, union};

// Joins the plan to what the first places of `out` hold, and gives how many switches it makes from the start set.
pub fn plan(steps: &[Limits], start: u64, out: &mut [u64]) -> u32
    requires few { length steps.now ≤ step_limit }
    requires satisfiable { Satisfiable steps.now }
    requires room { length steps.now ≤ length out.old }
    ensures out_after { out.new ≡ sets out.old 0 (joined (find_support start steps.now) out.old) }
    ensures value { result ≡ total start (find_support start steps.now) }
{
    let mut blocks = [Stretch::NONE; BLOCKS];
    fill_blocks(steps, &mut blocks);
    let scan = Scan {
        steps,
        blocks: &blocks,
    };
    let mut before = start;
    let mut total = 0;
    for i in 0..steps.len() {
        // what the place holds is read first: read after the set is made, the scan for that set has a register less
        // and takes longer
        let held = out[i];
        let set = scan.step_set(i, before);
        total += size(difference(set, before));
        out[i] = union(set, held);
        before = set;
    }
    total
}
