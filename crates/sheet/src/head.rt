// The header: refusals 1 to 3 and 13, or its numbers. Its functions take the whole bytes, of which the definitions
// speak, and not the first 24 in an array.
ghost use Rattle.std.specs.Prelude.{◌≡◌, not, ◌&&◌, ◌≤◌, eqb, length};
ghost use Rattle.chambers.specs.Chambers.{sum};
ghost use Rattle.format.specs.Answer.{Given, unless};
ghost use Rattle.format.specs.Format.{letters, letters_of, header_size, unit_limit, is_first, units_of, reserved_of, sizes, sizes_list, header};
ghost use Rattle.format.specs.Reading.{same, is_edition, header_causes};
ghost use Rattle.format.specs.Stages.{header_read};
ghost use Rattle.format.specs.Told.{told};

use super::Sheet;
use super::numbers::{u16_at, u32_at, u64_at};
use super::record::{Records, sheet_length};
use format::{Cause, ChamberSizes, Header, Refusal};

// Whether the bytes begin with the letters WARM.
#[tactic(auto, unfolding(format::specs::Reading::same), using(std::proofs::lemmas::Bool::Decides::nat_tests))]
fn has_letters(s: &[u8]) -> bool
    requires { header_size ≤ length s.now }
    ensures { result ≡ same (letters_of s.now) letters }
{
    s.starts_with(&Sheet::LETTERS)
}

// Whether there is such an edition.
fn is_edition(e: u8) -> bool
    ensures { result ≡ is_edition e }
{
    e == Sheet::FIRST_EDITION || e == Sheet::SECOND_EDITION
}

// Whether the bytes that are zero in the first edition are not, in a sheet of that edition.
fn has_reserved(records: Records<'_>) -> bool
    requires { header_size ≤ length records.bytes.now }
    ensures { result ≡ (is_first records.entry.bytes.now && not (eqb (reserved_of records.entry.bytes.now) 0)) }
{
    records.first && u32_at(records.bytes, Sheet::CHAMBERS_AT) != 0
}

// How many units each chamber has; in the first edition all units, whose number is handed in, are in the first
// chamber.
#[tactic(auto, unfolding(format::specs::Format::sizes, format::specs::Numbers::byte_at))]
fn read_sizes(records: Records<'_>, units: u8) -> ChamberSizes
    requires header_size_in_bounds { header_size ≤ length records.bytes.now }
    requires units_value { units ≡ units_of records.bytes.now }
    ensures { result ≡ sizes records.entry.bytes.now }
{
    let s = records.bytes;
    if records.first {
        return ChamberSizes {
            first: units,
            second: 0,
            third: 0,
            fourth: 0,
        };
    }
    ChamberSizes {
        first: s[Sheet::CHAMBERS_AT],
        second: s[Sheet::CHAMBERS_AT + 1],
        third: s[Sheet::CHAMBERS_AT + 2],
        fourth: s[Sheet::CHAMBERS_AT + 3],
    }
}

// How many units all chambers have together.
#[tactic(auto, unfolding(chambers::specs::Chambers::sum))]
fn together(z: ChamberSizes) -> u32
    ensures { result ≡ sum (sizes_list z) }
{
    u32::from(z.first) + u32::from(z.second) + u32::from(z.third) + u32::from(z.fourth)
}

// The numbers of a header that is whole, or refusal 3 or 13.
#[tactic(auto, using(std::proofs::lemmas::Bool::Decides::nat_tests), unfolding(format::specs::Answer::unless, format::specs::Numbers::byte_at))]
fn read_numbers(s: &[u8]) -> Result<Header, Refusal>
    requires { header_size ≤ length s.now }
    ensures { told result ≡ unless (header_causes s.now) (Given (header s.now)) }
{
    let units = s[Sheet::UNITS_AT];
    if units == 0 || Sheet::UNIT_LIMIT < units {
        return Err(Refusal::at(Cause::Header, Sheet::UNITS_AT));
    }
    let count = usize::from(u16_at(s, Sheet::RECORDS_AT));
    if Sheet::RECORD_LIMIT < count {
        return Err(Refusal::at(Cause::Header, Sheet::RECORDS_AT));
    }
    let records = Records::of(s);
    if has_reserved(records) {
        return Err(Refusal::at(Cause::Header, Sheet::CHAMBERS_AT));
    }
    let sizes = read_sizes(records, units);
    if together(sizes) != u32::from(units) {
        return Err(Refusal::at(Cause::ChamberSizes, Sheet::CHAMBERS_AT));
    }
    let start = u64_at(s, Sheet::START_AT);
    if units::has_unit_from(start, u32::from(units)) {
        return Err(Refusal::at(Cause::Header, Sheet::START_AT));
    }
    if s.len() != sheet_length(records.first, count) {
        return Err(Refusal::at(Cause::Header, Sheet::HEADER_SIZE));
    }
    Ok(Header {
        units: u32::from(units),
        records: count as u32,
        bound: u32::from(u16_at(s, Sheet::BOUND_AT)),
        start,
        sizes,
    })
}

// The numbers of the header, or the refusal that comes first.
#[tactic(auto, using(std::proofs::lemmas::Bool::Decides::nat_tests), unfolding(format::specs::Answer::unless, format::specs::Numbers::byte_at))]
pub fn read_header(s: &[u8]) -> Result<Header, Refusal>
    ensures { told result ≡ header_read s.now }
{
    if s.len() < Sheet::HEADER_SIZE || Sheet::LONGEST < s.len() {
        return Err(Refusal::at(Cause::Length, 0));
    }
    if !has_letters(s) {
        return Err(Refusal::at(Cause::Form, 0));
    }
    if !is_edition(s[Sheet::EDITION_AT]) {
        return Err(Refusal::at(Cause::Form, Sheet::EDITION_AT));
    }
    read_numbers(s)
}
