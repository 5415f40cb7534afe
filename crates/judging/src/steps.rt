// The steps of a sheet as a list: refusals 1 to 8, 13 and 14, or what the sheet says.
ghost use Rattle.std.specs.Prelude.{◌≡◌, ◌≤◌, length, IfOk};
ghost use Rattle.format.specs.Reading.{steps_of, campaign_of};
ghost use Rattle.format.specs.Told.{told_of};
ghost use Rattle.promises.specs.Common.{written};
ghost use Rattle.promises.specs.Replies.{summary_reply};
ghost use Rattle.promises.specs.Steps.{steps_answer, warm_steps};

use format::{Cause, ChamberStep, Refusal, Summary};
use sheet::Sheet;
use sheet::open::read;

// What is replied where the list has that many places: refusals 1 to 8, 13 and 14, or the sheet. It is put into its
// caller as `read` is put into it: as a function of its own it takes half as long again to refuse a header.
#[inline(always)]
pub fn steps_reply<'a>(bytes: &'a [u8], places: usize) -> Result<Sheet<'a>, Refusal>
    ensures value { told_of (λ sheet. campaign_of sheet.bytes.now) result ≡ steps_answer bytes.now places }
    ensures room { IfOk result (λ sheet. (sheet.bytes.now ≡ bytes.now) × (sheet.summary.steps ≤ places)) }
{
    let sheet = read(bytes)?;
    let many = sheet.summary.steps;
    if places < many as usize {
        return Err(Refusal {
            cause: Cause::ShortOutput,
            place: many,
        });
    }
    Ok(sheet)
}

// Puts the steps of a sheet into the first places of the list.
fn put_steps(sheet: Sheet, list: &mut [ChamberStep])
    requires { sheet.summary.steps ≤ length list.old }
    ensures { list.new ≡ written (steps_of sheet.entry.bytes.now) list.old }
{
    for (i, step) in sheet.steps().enumerate() {
        list[i] = step;
    }
}

// The steps of a sheet into the first places of the list, and what else the sheet says.
pub fn list_steps(bytes: &[u8], list: &mut [ChamberStep]) -> Result<Summary, Refusal>
    ensures { (summary_reply result, list.new) ≡ warm_steps bytes.now list.old }
{
    let sheet = steps_reply(bytes, list.len())?;
    put_steps(sheet, list);
    Ok(sheet.summary)
}
