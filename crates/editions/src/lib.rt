// Sheets converted from one edition to the other: the reader's refusals, 15 and 8, or the bytes of the sheet in the
// other edition. specs/Editions.antt of `format` has these bytes. `first` is true for the first edition everywhere.
// Nothing here is an open entry of the library.
#![tactic(auto)]

pub mod remake;

ghost use Rattle.std.specs.Prelude.{◌≡◌, ◌&&◌, ltb, length};
ghost use Rattle.promises.specs.Convert.{convert_answer, warm_convert};
ghost use Rattle.promises.specs.Common.{wrote};
ghost use Rattle.promises.specs.Replies.{bytes_reply};

use format::{Cause, Header, Refusal};
use remake::put_sheet;
use sheet::Sheet;
use sheet::open::read;
use sheet::record::sheet_length;

// Whether the first edition is wanted, which has one chamber, and a unit is outside that chamber.
fn leaves_out(first: bool, h: Header) -> bool
    ensures { result ≡ (first && ltb h.sizes.first h.units) }
{
    first && u32::from(h.sizes.first) < h.units
}

// Converts a sheet that was read: refusals 15 and 8, or the sheet, into the first places of the output, and its
// length.
fn convert_read(first: bool, sheet: Sheet, out: &mut [u8]) -> Result<u32, Refusal>
    ensures { (bytes_reply result, out.new) ≡ wrote out.old (convert_answer first sheet.entry.bytes.now (length out.old)) }
{
    let header = sheet.summary.header;
    if leaves_out(first, header) {
        return Err(Refusal::at(Cause::OtherChambers, Sheet::CHAMBERS_AT));
    }
    let length = sheet_length(first, header.records as usize);
    if out.len() < length {
        return Err(Refusal::at(Cause::ShortOutput, length));
    }
    put_sheet(first, sheet.bytes, out);
    Ok(length as u32)
}

// A sheet in an edition, into the first places of the output, and its length.
pub fn convert(first: bool, bytes: &[u8], out: &mut [u8]) -> Result<u32, Refusal>
    ensures { (bytes_reply result, out.new) ≡ warm_convert first bytes.now out.old }
{
    convert_read(first, read(bytes)?, out)
}
