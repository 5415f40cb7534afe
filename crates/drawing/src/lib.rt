// The chart of a sheet that was read, drawn chamber by chamber from its plan: what the bound leaves to spare in all,
// it leaves in each. Nothing here is an open entry of the library.
#![tactic(auto)]

ghost use Rattle.std.specs.Prelude.{◌≡◌, true, false, ◌+◌, ◌≤◌, length, take};
ghost use Rattle.std.proofs.lemmas.List.Edits.{sets};
ghost use Rattle.campaign.specs.Benches.{chamber_on, DecodedIn, chart_on, joined_to};
ghost use Rattle.plans.specs.Switch.{total};
ghost use Rattle.format.specs.Format.{start_of};
ghost use Rattle.promises.specs.Chart.{on_words, off_words};
ghost use Rattle.promises.specs.Plan.{support_on};

use chart::draw_chart;
use forward::Run;
use plans::Limits;
use sheet::Sheet;
use sheet::decode::decode;
use sheet::parts::{Chamber, deal};
use units::intersection;
use words::{clear, cut_words};

// A sheet, the plan of all chambers, which is the one that is handed out, and how many switches the
// bound leaves to spare.
#[derive(Clone, Copy)]
pub struct Planned<'a> {
    pub sheet: Sheet<'a>,
    pub plan: &'a [u64],
    pub slack: u32,
    ghost room: { sheet.summary.steps ≤ length plan.now },
    ghost whole: { take sheet.summary.steps plan.now ≡ support_on sheet.bytes.now },
    ghost left: { total (start_of sheet.bytes.now) (support_on sheet.bytes.now) + slack ≡ sheet.summary.header.bound },
}

impl Planned<'_> {
    // Joins the chart of a chamber of the sheet to the first places of the outputs. The steps of the chamber are in
    // the first places of `steps`. It works in `part`. Of an empty chamber there is nothing to join.
    fn draw_decoded(
        &self,
        chamber: Chamber,
        steps: &[Limits],
        part: &mut [u64; Sheet::RECORD_LIMIT],
        on: &mut [u64],
        off: &mut [u64],
    )
        requires chamber_of_sheet { chamber ≡ chamber_on self.now.sheet.bytes.now chamber.number }
        requires decoded_in { DecodedIn self.now.sheet.bytes.now self.now.sheet.summary.steps (chamber_on self.now.sheet.bytes.now chamber.number) steps.now }
        requires room_in_steps { self.now.sheet.summary.steps ≤ length steps.now }
        requires room_in_on { self.now.sheet.summary.steps ≤ length on.old }
        requires room_in_off { self.now.sheet.summary.steps ≤ length off.old }
        ensures on_after { on.new ≡ joined_to self.now.sheet.summary.steps (chart_on true self.now.sheet.bytes.now self.now.slack chamber.number) on.old }
        ensures off_after { off.new ≡ joined_to self.now.sheet.summary.steps (chart_on false self.now.sheet.bytes.now self.now.slack chamber.number) off.old }
    {
        let units = chamber.units;
        if units == 0 {
            return;
        }
        let n = self.sheet.summary.steps as usize;
        let header = self.sheet.summary.header;
        cut_words(self.plan, units, part, n);
        let run = Run {
            steps: &steps[..n],
            plan: &part[..n],
            start: intersection(header.start, units),
        };
        draw_chart(&run, units, self.slack, on, off)
    }

    // The same for a chamber that is not decoded yet: its steps go into `steps`.
    fn draw_chamber(
        &self,
        chamber: Chamber,
        steps: &mut [Limits],
        part: &mut [u64; Sheet::RECORD_LIMIT],
        on: &mut [u64],
        off: &mut [u64],
    )
        requires chamber_of_sheet { chamber ≡ chamber_on self.now.sheet.bytes.now chamber.number }
        requires room_in_steps { self.now.sheet.summary.steps ≤ length steps.old }
        requires room_in_on { self.now.sheet.summary.steps ≤ length on.old }
        requires room_in_off { self.now.sheet.summary.steps ≤ length off.old }
        ensures on_after { on.new ≡ joined_to self.now.sheet.summary.steps (chart_on true self.now.sheet.bytes.now self.now.slack chamber.number) on.old }
        ensures off_after { off.new ≡ joined_to self.now.sheet.summary.steps (chart_on false self.now.sheet.bytes.now self.now.slack chamber.number) off.old }
    {
        if chamber.units == 0 {
            return;
        }
        decode(self.sheet, chamber, steps);
        self.draw_decoded(chamber, steps, part, on, off)
    }

    // The chart of the sheet, into the first places of the outputs: that of each chamber, put together. The steps of
    // the first chamber are decoded already.
    pub fn draw_all(&self, steps: &mut [Limits], on: &mut [u64], off: &mut [u64])
        requires decoded_in { DecodedIn self.now.sheet.bytes.now self.now.sheet.summary.steps (chamber_on self.now.sheet.bytes.now 0) steps.old }
        requires room_in_steps { self.now.sheet.summary.steps ≤ length steps.old }
        requires room_in_on { self.now.sheet.summary.steps ≤ length on.old }
        requires room_in_off { self.now.sheet.summary.steps ≤ length off.old }
        ensures on_after { on.new ≡ sets on.old 0 (on_words self.now.sheet.bytes.now) }
        ensures off_after { off.new ≡ sets off.old 0 (off_words self.now.sheet.bytes.now) }
    {
        let header = self.sheet.summary.header;
        let chambers = deal(header.sizes);
        let n = self.sheet.summary.steps as usize;
        clear(on, n);
        clear(off, n);
        let mut part = [0u64; Sheet::RECORD_LIMIT];
        self.draw_decoded(chambers.at(0), steps, &mut part, on, off);
        for c in 1..Sheet::CHAMBERS {
            self.draw_chamber(chambers.at(c), steps, &mut part, on, off);
        }
    }
}
