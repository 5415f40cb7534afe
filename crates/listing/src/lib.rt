// The listings of a sheet: its plan as text, or how many units may be on in each step, or the refusal that it gets.
// `list_plan` and `list_sizes` are open to callers, and nothing else; docs/FORMAT.md has the texts.
#![tactic(auto)]

mod digits;
pub mod input;
mod lines;
mod sizes;
mod text;

ghost use Rattle.std.specs.Prelude.{◌≡◌, ◌≤◌, length, take};
ghost use Rattle.format.specs.Format.{record_limit};
ghost use Rattle.promises.specs.Listing.{plan_lines, listing, list_plan, list_sizes};
ghost use Rattle.listing.specs.Puts.{HasRoom, Puts};
ghost use Rattle.listing.specs.Room.{longest_listing};

use campaign::plan_read;
use format::{Cause, Refusal, Summary};
use lines::{FIRST_LINE, STEP_LINE, TOTAL_LINE};
use plans::Limits;
use sheet::Sheet;
use sheet::open::read;
use sizes::SIZES_LINE;
use text::Text;

// Room for the bytes of a sheet: one more than the longest has, so that a longer input is refused and not cut to one
// that passes.
pub const INPUT: usize = Sheet::LONGEST + 1;

// No listing of a plan is longer: a first line, a line for each step of the longest sheet, and a last line.
pub const LONGEST: usize = FIRST_LINE + Sheet::RECORD_LIMIT * STEP_LINE + TOTAL_LINE;

// No listing of sizes is longer: a line for each step of the longest sheet.
pub const LONGEST_SIZES: usize = Sheet::RECORD_LIMIT * SIZES_LINE;

impl<'a> Text<'a> {
    // The lines of a plan, which stands in the first places of `sets`, with its total.
    fn put_plan(&mut self, x: Summary, sets: &[u64], total: u32)
        requires few { x.steps ≤ record_limit }
        requires all_there { x.steps ≤ length sets.now }
        requires room { HasRoom self.old longest_listing }
        ensures { Puts (plan_lines x.header.units x.steps x.header.bound x.header.start (take x.steps sets.now) total)
            self.old self.new }
    {
        let h = x.header;
        self.put_first_line(h.units, x.steps, h.bound);
        self.put_step_lines(h.start, &sets[..x.steps as usize]);
        self.put_total_line(total);
    }

    // The listing of the plan of a sheet. The arrays that it works in are here and not in `list_plan`, which would
    // clear them for sheets that are refused as well.
    fn put_listing(&mut self, sheet: Sheet)
        requires { HasRoom self.old longest_listing }
        ensures { Puts (listing sheet.entry.bytes.now) self.old self.new }
    {
        let mut steps = [Limits::NONE; Sheet::RECORD_LIMIT];
        let mut sets = [0u64; Sheet::RECORD_LIMIT];
        let total = plan_read(sheet, &mut steps, &mut sets);
        if sheet.summary.header.bound < total {
            self.put_refusal(Refusal {
                cause: Cause::Bound,
                place: total,
            });
        } else {
            self.put_plan(sheet.summary, &sets, total);
        }
    }
}

// Puts the listing of the plan of any bytes into the first places of the output, and gives its length.
pub fn list_plan(sheet: &[u8], out: &mut [u8; LONGEST]) -> usize
    ensures { (result, out.new) ≡ list_plan sheet.now out.old }
{
    let mut text = Text { out, len: 0 };
    match read(sheet) {
        Err(refusal) => text.put_refusal(refusal),
        Ok(sheet) => text.put_listing(sheet),
    }
    text.len
}

// Puts the listing of the sizes of any bytes into the first places of the output, and gives its length.
pub fn list_sizes(sheet: &[u8], out: &mut [u8; LONGEST_SIZES]) -> usize
    ensures { (result, out.new) ≡ list_sizes sheet.now out.old }
{
    let mut text = Text { out, len: 0 };
    match read(sheet) {
        Err(refusal) => text.put_refusal(refusal),
        Ok(sheet) => text.put_sizes_lines(sheet),
    }
    text.len
}
