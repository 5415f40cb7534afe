// The entries of `warm` for callers in C, by the names of include/warm.h: each is one call of the entry of its name,
// and has the same one `ensures` and no `requires`. A caller that Rattle does not check has to meet what the types
// say: a length is true, and what is lent to be written is lent to nothing else.
#![tactic(auto)]

ghost use Rattle.std.specs.Prelude.{◌≡◌, true, false};
ghost use Rattle.promises.specs.Chart.{warm_chart};
ghost use Rattle.promises.specs.Convert.{warm_convert};
ghost use Rattle.promises.specs.Plan.{warm_plan};
ghost use Rattle.promises.specs.Steps.{warm_steps};
ghost use Rattle.promises.specs.Verdict.{warm_verdict};
ghost use Rattle.promises.specs.Write.{warm_write};

use format::{ChamberStep, Step};
use promises::{Reply, StepsReply, Written};

// The steps of a sheet, one struct a step, into the first places of the list. The number in its name goes with the
// struct: a caller that was compiled for another one finds no such entry.
#[unsafe(no_mangle)]
pub extern "C" fn warm_steps_2(sheet: &[u8], steps: &mut [ChamberStep]) -> StepsReply
    ensures { (result, steps.new) ≡ warm_steps sheet.now steps.old }
{
    warm::warm_steps_2(sheet, steps)
}

// The plan of a sheet with the fewest switches, into the first places of the output.
#[unsafe(no_mangle)]
pub extern "C" fn warm_plan(sheet: &[u8], plan: &mut [u64]) -> Reply
    ensures { (result, plan.new) ≡ warm_plan sheet.now plan.old }
{
    warm::warm_plan(sheet, plan)
}

// The chart of a sheet: into the first places of `on` the units that can be on in each step, into those of `off` the
// units that can be off.
#[unsafe(no_mangle)]
pub extern "C" fn warm_chart(sheet: &[u8], on: &mut [u64], off: &mut [u64]) -> Reply
    ensures { (result, (on.new, off.new)) ≡ warm_chart sheet.now on.old off.old }
{
    warm::warm_chart(sheet, on, off)
}

// Whether a plan meets a sheet, and the plan's total, met or not.
#[unsafe(no_mangle)]
pub extern "C" fn warm_verdict(sheet: &[u8], plan: &[u64]) -> Reply
    ensures { result ≡ warm_verdict sheet.now plan.now }
{
    warm::warm_verdict(sheet, plan)
}

// The sheet of some steps, in their order, into the first places of the output.
#[unsafe(no_mangle)]
pub extern "C" fn warm_write(
    units: u8,
    bound: u16,
    start: u64,
    steps: &[Step],
    sheet: &mut [u8],
) -> Written
    ensures { (result, sheet.new) ≡ warm_write units bound start steps.now sheet.old }
{
    warm::warm_write(units, bound, start, steps, sheet)
}

// A sheet as one of edition 1, into the first places of the output. One of edition 1 is copied as it is.
#[unsafe(no_mangle)]
pub extern "C" fn warm_to_edition_1(sheet: &[u8], out: &mut [u8]) -> Written
    ensures { (result, out.new) ≡ warm_convert true sheet.now out.old }
{
    warm::warm_to_edition_1(sheet, out)
}

// A sheet as one of edition 2. One of edition 2 is copied as it is.
#[unsafe(no_mangle)]
pub extern "C" fn warm_to_edition_2(sheet: &[u8], out: &mut [u8]) -> Written
    ensures { (result, out.new) ≡ warm_convert false sheet.now out.old }
{
    warm::warm_to_edition_2(sheet, out)
}
