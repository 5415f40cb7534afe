// The verdict on a plan made elsewhere: refusals 1 to 7, 10, 13 and 14, or yes or no and the plan's total.
ghost use Rattle.std.specs.Prelude.{◌≡◌, Ok, length};
ghost use Rattle.format.specs.Format.{start_of};
ghost use Rattle.plans.specs.Switch.{total};
ghost use Rattle.promises.specs.Common.{full_reply};
ghost use Rattle.promises.specs.Replies.{verdict_reply};
ghost use Rattle.promises.specs.Verdict.{accepts, warm_verdict};

use campaign::check::check_read;
use format::{Cause, Refusal};
use promises::Verdict;
use sheet::Sheet;
use sheet::open::read;

// The verdict on a plan that has a word for each step of a sheet.
fn judge(sheet: Sheet, plan: &[u64]) -> Verdict
    requires { length plan.now ≡ sheet.summary.steps }
    ensures { verdict_reply (Ok result) ≡
        full_reply (total (start_of sheet.entry.bytes.now) plan.now) (accepts sheet.entry.bytes.now plan.now) }
{
    let found = check_read(sheet, plan);
    let bound = sheet.summary.header.bound;
    Verdict {
        total: found.total,
        accepted: found.feasible && found.total <= bound,
    }
}

// Whether a plan meets a sheet, and the plan's total, met or not.
pub fn verdict(bytes: &[u8], plan: &[u64]) -> Result<Verdict, Refusal>
    ensures { verdict_reply result ≡ warm_verdict bytes.now plan.now }
{
    let sheet = read(bytes)?;
    let many = sheet.summary.steps;
    if plan.len() != many as usize {
        return Err(Refusal {
            cause: Cause::PlanLength,
            place: many,
        });
    }
    Ok(judge(sheet, plan))
}
