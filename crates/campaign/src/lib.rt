// A campaign that was read from a sheet, chamber by chamber: the steps of a chamber are decoded, with the sizes of
// their feasible sets in the place of their two numbers, and planned, and the plans of all chambers are joined; or a
// plan is checked on the steps. Nothing here is an open entry of the library.
#![tactic(auto)]

pub mod check;

ghost use Rattle.std.specs.Prelude.{◌≡◌, ◌≤◌, length};
ghost use Rattle.std.proofs.lemmas.List.Edits.{sets};
ghost use Rattle.plans.specs.Switch.{total};
ghost use Rattle.format.specs.Format.{start_of};
ghost use Rattle.promises.specs.Plan.{support_on};
ghost use Rattle.campaign.specs.Benches.{chamber_on, DecodedIn, plan_on, total_on, joined_to};

use plans::Limits;
use sheet::Sheet;
use sheet::decode::decode;
use sheet::parts::{Chamber, deal};
use switch::plan::plan;
use units::intersection;
use words::clear;

// Joins the plan of a chamber of the sheet to the first places of `out`, and gives its total. Its steps stay in the
// first places of `steps`, unless the chamber is empty.
fn join_chamber(sheet: Sheet, chamber: Chamber, steps: &mut [Limits], out: &mut [u64]) -> u32
    requires chamber_of_sheet { chamber ≡ chamber_on sheet.bytes.now chamber.number }
    requires room_in_steps { sheet.summary.steps ≤ length steps.old }
    requires room_in_out { sheet.summary.steps ≤ length out.old }
    ensures decoded_in { DecodedIn sheet.entry.bytes.now sheet.entry.summary.steps (chamber_on sheet.entry.bytes.now chamber.number) steps.new }
    ensures out_after { out.new ≡ joined_to sheet.entry.summary.steps (plan_on sheet.entry.bytes.now chamber.number) out.old }
    ensures value { result ≡ total_on sheet.entry.bytes.now chamber.number }
{
    let units = chamber.units;
    if units == 0 {
        return 0;
    }
    let n = sheet.summary.steps as usize;
    decode(sheet, chamber, steps);
    plan(
        &steps[..n],
        intersection(sheet.summary.header.start, units),
        out,
    )
}

// The plan of a sheet, into the first places of `out`, and its total. It works in `steps`, whose first places then
// have the steps of the first chamber, unless that is empty.
pub fn plan_read(sheet: Sheet, steps: &mut [Limits], out: &mut [u64]) -> u32
    requires room_in_steps { sheet.summary.steps ≤ length steps.old }
    requires room_in_out { sheet.summary.steps ≤ length out.old }
    ensures decoded_in { DecodedIn sheet.entry.bytes.now sheet.entry.summary.steps (chamber_on sheet.entry.bytes.now 0) steps.new }
    ensures out_after { out.new ≡ sets out.old 0 (support_on sheet.entry.bytes.now) }
    ensures value { result ≡ total (start_of sheet.entry.bytes.now) (support_on sheet.entry.bytes.now) }
{
    let chambers = deal(sheet.summary.header.sizes);
    clear(out, sheet.summary.steps as usize);
    let mut total = 0;
    for c in (0..Sheet::CHAMBERS).rev() {
        total += join_chamber(sheet, chambers.at(c), steps, out);
    }
    total
}
