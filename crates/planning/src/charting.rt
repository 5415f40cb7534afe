// The chart: refusals 1 to 9, 13 and 14, or the units that can be on and those that can be off in each step, over all
// plans that meet the sheet.
ghost use Rattle.std.specs.Prelude.{◌≡◌, ◌≤◌, length};
ghost use Rattle.format.specs.Answer.{Given, unless};
ghost use Rattle.format.specs.Format.{start_of};
ghost use Rattle.promises.specs.Chart.{on_words, off_words, charted, warm_chart};
ghost use Rattle.promises.specs.Plan.{support_on, bound_causes};
ghost use Rattle.promises.specs.Replies.{plan_reply};

use campaign::plan_read;
use drawing::Planned;
use format::{Cause, Refusal};
use plans::Limits;
use sheet::Sheet;
use sheet::open::read;

// The chart of a sheet, where the outputs have a place for each step: refusal 9, or the chart, and the plan's total.
fn chart_read(sheet: Sheet, on: &mut [u64], off: &mut [u64]) -> Result<u32, Refusal>
    requires room_in_on { sheet.summary.steps ≤ length on.old }
    requires room_in_off { sheet.summary.steps ≤ length off.old }
    ensures { let s = sheet.entry.bytes.now in
        (plan_reply result, (on.new, off.new)) ≡
        charted (start_of s) (on_words s) (off_words s) on.old off.old (unless (bound_causes s) (Given (support_on s))) }
{
    let mut steps = [Limits::NONE; Sheet::RECORD_LIMIT];
    let mut plan = [0u64; Sheet::RECORD_LIMIT];
    let bound = sheet.summary.header.bound;
    let total = plan_read(sheet, &mut steps, &mut plan);
    if bound < total {
        return Err(Refusal {
            cause: Cause::Bound,
            place: total,
        });
    }
    let planned = Planned {
        sheet,
        plan: &plan,
        slack: bound - total,
    };
    planned.draw_all(&mut steps, on, off);
    Ok(total)
}

// The chart of a sheet: into the first places of `on` the units that can be on in each step, into those of `off` the
// units that can be off; and the plan's total.
pub fn chart(bytes: &[u8], on: &mut [u64], off: &mut [u64]) -> Result<u32, Refusal>
    ensures { (plan_reply result, (on.new, off.new)) ≡ warm_chart bytes.now on.old off.old }
{
    let sheet = read(bytes)?;
    let many = sheet.summary.steps;
    if on.len().min(off.len()) < many as usize {
        return Err(Refusal {
            cause: Cause::ShortOutput,
            place: many,
        });
    }
    chart_read(sheet, on, off)
}
