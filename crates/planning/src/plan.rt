// The plan: refusals 1 to 9, 13 and 14, or FindSupport's plans of all chambers, put together, and their total.
ghost use Rattle.std.specs.Prelude.{◌≡◌, ◌≤◌, length};
ghost use Rattle.format.specs.Answer.{Given, unless};
ghost use Rattle.format.specs.Format.{start_of};
ghost use Rattle.promises.specs.Plan.{support_on, bound_causes, planned, warm_plan};
ghost use Rattle.promises.specs.Replies.{plan_reply};

use campaign::plan_read;
use format::{Cause, Refusal};
use plans::Limits;
use sheet::Sheet;
use sheet::open::read;
use words::copy_words;

// Hands out the plan of a sheet, where the output has a place for each step: refusal 9, or the plan, and its total. The
// arrays that it works in are here and not in `plan`, which would clear them for sheets that are refused as well.
fn hand_out(sheet: Sheet, plan: &mut [u64]) -> Result<u32, Refusal>
    requires { sheet.summary.steps ≤ length plan.old }
    ensures { let s = sheet.entry.bytes.now in
        (plan_reply result, plan.new) ≡ planned (start_of s) plan.old (unless (bound_causes s) (Given (support_on s))) }
{
    let mut steps = [Limits::NONE; Sheet::RECORD_LIMIT];
    let mut sets = [0u64; Sheet::RECORD_LIMIT];
    let total = plan_read(sheet, &mut steps, &mut sets);
    let bound = sheet.summary.header.bound;
    if bound < total {
        return Err(Refusal {
            cause: Cause::Bound,
            place: total,
        });
    }
    copy_words(&sets, plan, sheet.summary.steps as usize);
    Ok(total)
}

// The plan of a sheet with the fewest switches, into the first places of the output, and its total.
pub fn plan(bytes: &[u8], plan: &mut [u64]) -> Result<u32, Refusal>
    ensures { (plan_reply result, plan.new) ≡ warm_plan bytes.now plan.old }
{
    let sheet = read(bytes)?;
    let many = sheet.summary.steps;
    if plan.len() < many as usize {
        return Err(Refusal {
            cause: Cause::ShortOutput,
            place: many,
        });
    }
    hand_out(sheet, plan)
}
