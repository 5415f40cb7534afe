// Sheets that are written: refusals 11 and 12, or the bytes of a sheet of some steps in edition 1.
// specs/Writing.antt of `format` has these bytes. Nothing here is an open entry of the library.
#![tactic(auto)]

pub mod records;

ghost use Rattle.std.specs.Prelude.{◌≡◌, true, ◌-◌, ◌*◌, ◌/◌, ◌≤◌, length};
ghost use Rattle.format.specs.Format.{header_size, record_size, record_limit};
ghost use Rattle.format.specs.Writing.{header_bytes, link_in, records_after};
ghost use Rattle.promises.specs.Common.{written};
ghost use Rattle.promises.specs.Replies.{bytes_reply};
ghost use Rattle.promises.specs.Write.{warm_write};
ghost use Rattle.writer.specs.Begun.{length_answer, begun};

use format::{Cause, Refusal, Step};
use records::{header, record};
use sheet::Sheet;

// Begins a sheet of n steps: refusals 11 and 12, or its header into the first places of the output, and its length.
#[tactic(auto, using(std::proofs::lemmas::Bool::Decides::nat_tests), unfolding(format::specs::Answer::unless, promises::specs::Write::write_refusals, crate::specs::Begun::begun))]
pub fn begin_sheet(
    units: u8,
    bound: u16,
    start: u64,
    n: usize,
    out: &mut [u8],
) -> Result<u32, Refusal>
    ensures { (bytes_reply result, out.new) ≡
        begun (header_bytes units n (link_in 0 n) bound start) out.old (length_answer units start n (length out.old)) }
{
    if units == 0
        || Sheet::UNIT_LIMIT < units
        || units::has_unit_from(start, u32::from(units))
        || Sheet::RECORD_LIMIT < n
    {
        return Err(Refusal::at(Cause::Limits, 0));
    }
    let length = Sheet::HEADER_SIZE + Sheet::RECORD_SIZE * n;
    if out.len() < length {
        return Err(Refusal::at(Cause::NoRoom, length));
    }
    out[..Sheet::HEADER_SIZE].copy_from_slice(&header(units, n, bound, start));
    Ok(length as u32)
}

// Puts the records of a sheet of some steps into the first places of the output, and leaves all others.
fn put_records(steps: &[Step], out: &mut [u8])
    requires few { length steps.now ≤ record_limit }
    requires room { record_size true * length steps.now ≤ length out.old }
    ensures { out.new ≡ written (records_after 0 (length steps.now) steps.now) out.old }
{
    for (i, step) in steps.iter().enumerate() {
        let at = Sheet::RECORD_SIZE * i;
        out[at..at + Sheet::RECORD_SIZE].copy_from_slice(&record(*step, i + 1, steps.len()));
    }
}

// Refusals 11 and 12, or the sheet of some steps, in their order, into the first places of the output, and its length.
pub fn write(
    units: u8,
    bound: u16,
    start: u64,
    steps: &[Step],
    out: &mut [u8],
) -> Result<u32, Refusal>
    ensures { (bytes_reply result, out.new) ≡ warm_write units bound start steps.now out.old }
{
    let length = begin_sheet(units, bound, start, steps.len(), out)?;
    put_records(steps, &mut out[Sheet::HEADER_SIZE..]);
    Ok(length)
}

// How many records a sheet of that length has after its header, in edition 1; 0 where nothing is written.
pub fn records_in(length: u32) -> usize
    ensures { result ≡ (length - header_size) / record_size true }
{
    (length as usize).saturating_sub(Sheet::HEADER_SIZE) / Sheet::RECORD_SIZE
}
