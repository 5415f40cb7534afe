// The records of a sheet: where each lies, the step that it holds, and the number of the record after it.
ghost use Rattle.std.specs.Prelude.{◌≡◌, cond, ◌+◌, ◌≤◌, ◌<◌, ◌^◌, length};
ghost use Rattle.format.specs.Chain.{Within};
ghost use Rattle.format.specs.Format.{record_size, greatest_at, next_at, reserved_at, tag_at, sheet_length, record_offset, is_first, numbers_at, step_of, next_of};
ghost use Rattle.format.specs.Numbers.{u16_at};

use super::Sheet;
use super::numbers::{u16_at, u32_at, u64_at};
use format::ChamberStep;

// Whether a sheet is one of the first edition.
#[tactic(auto, unfolding(format::specs::Numbers::byte_at))]
pub fn is_first(s: &[u8]) -> bool
    ensures { result ≡ is_first s.now }
{
    s.get(Sheet::EDITION_AT) == Some(&Sheet::FIRST_EDITION)
}

// The bytes of a record, and the places of its fields that lie elsewhere in the second edition. Each is the definition
// of its name, a choice of two constants: one function with a parameter for the field would be a choice more.
fn record_size(first: bool) -> usize
    ensures { result ≡ record_size first }
{
    if first {
        Sheet::RECORD_SIZE
    } else {
        Sheet::CHAMBER_RECORD_SIZE
    }
}

fn greatest_at(first: bool) -> usize
    ensures { result ≡ greatest_at first }
{
    if first {
        Sheet::GREATEST_AT
    } else {
        Sheet::CHAMBER_GREATEST_AT
    }
}

fn next_at(first: bool) -> usize
    ensures { result ≡ next_at first }
{
    if first {
        Sheet::NEXT_AT
    } else {
        Sheet::CHAMBER_NEXT_AT
    }
}

fn tag_at(first: bool) -> usize
    ensures { result ≡ tag_at first }
{
    if first {
        Sheet::TAG_AT
    } else {
        Sheet::CHAMBER_TAG_AT
    }
}

// The length of a sheet of r records.
pub fn sheet_length(first: bool, r: usize) -> usize
    requires { sheet_length first r < 2 ^ 64 }
    ensures { result ≡ sheet_length first r }
{
    Sheet::HEADER_SIZE + record_size(first) * r
}

// Where record j lies.
pub fn record_offset(first: bool, j: usize) -> usize
    requires j_nonzero { 0 < j }
    requires j_bound { sheet_length first j < 2 ^ 64 }
    ensures { result ≡ record_offset first j }
{
    sheet_length(first, j - 1)
}

// The records of a sheet, with whether it is one of the first edition, which is read once for each walk. Where `first`
// is a known constant, the places of a record are known numbers, and not chosen anew for each record.
// A record's number is a plain number, and 0 that of the header, as the links in the bytes have it.
#[derive(Clone, Copy)]
pub struct Records<'a> {
    pub bytes: &'a [u8],
    pub first: bool,
    pub ghost edition: { first ≡ is_first bytes.now },
}

impl<'a> Records<'a> {
    pub fn of(bytes: &'a [u8]) -> Records<'a>
        ensures { result.bytes.now ≡ bytes.now }
    {
        Records {
            bytes,
            first: is_first(bytes),
        }
    }

    // The same, with the edition as a constant: what is done with them is then code of that edition alone.
    pub(crate) fn of_edition(self, first: bool) -> Records<'a>
        requires { first ≡ self.first }
        ensures { result.bytes.now ≡ self.entry.bytes.now }
    {
        Records {
            bytes: self.bytes,
            first,
        }
    }

    // The numbers of the chambers from a place on.
    #[tactic(auto, unfolding(format::specs::Numbers::byte_at))]
    fn numbers_at(self, at: usize) -> [u8; 4]
        requires { at + 4 ≤ length self.bytes.now }
        ensures { result ≡ numbers_at self.entry.first self.entry.bytes.now at }
    {
        let s = self.bytes;
        if self.first {
            [s[at], 0, 0, 0]
        } else {
            [s[at], s[at + 1], s[at + 2], s[at + 3]]
        }
    }

    // The bytes that are zero, of a record that lies at a place and whole within the bytes. The first edition has
    // none.
    fn reserved_in(self, at: usize) -> u32
        requires { at + record_size self.first ≤ length self.bytes.now }
        ensures { result ≡ cond self.entry.first 0 (u16_at self.entry.bytes.now (at + reserved_at)) }
    {
        if self.first {
            0
        } else {
            u32::from(u16_at(self.bytes, at + Sheet::RESERVED_AT))
        }
    }

    // The step of record j, which lies whole within the bytes.
    #[tactic(auto, unfolding(format::specs::Format::step_in, format::specs::Format::step_of))]
    fn step_by(self, j: usize) -> ChamberStep
        requires j_nonzero { 0 < j }
        requires within { Within self.bytes.now j }
        ensures { result ≡ step_of self.entry.bytes.now j }
    {
        let s = self.bytes;
        let at = record_offset(self.first, j);
        ChamberStep {
            lower: u64_at(s, at),
            upper: u64_at(s, at + Sheet::UPPER_AT),
            least: self.numbers_at(at + Sheet::LEAST_AT),
            greatest: self.numbers_at(at + greatest_at(self.first)),
            tag: u32_at(s, at + tag_at(self.first)),
            reserved: self.reserved_in(at),
        }
    }

    // The same, where each edition has its own code, which is faster.
    pub fn step(self, j: usize) -> ChamberStep
        requires j_nonzero { 0 < j }
        requires within { Within self.bytes.now j }
        ensures { result ≡ step_of self.entry.bytes.now j }
    {
        if self.first {
            self.of_edition(true).step_by(j)
        } else {
            self.of_edition(false).step_by(j)
        }
    }

    // The number of the record after record j, or of the first record where j is 0, for the header; 0 if there is
    // none.
    #[tactic(auto, unfolding(format::specs::Format::next_of), using(format::proofs::Records::next_first, format::proofs::Records::next_after))]
    fn follow_by(self, j: usize) -> usize
        requires within { Within self.bytes.now j }
        ensures { (result ≡ next_of self.entry.bytes.now j) × (result < 65536) }
    {
        let s = self.bytes;
        if j == 0 {
            return usize::from(u16_at(s, Sheet::FIRST_AT));
        }
        usize::from(u16_at(s, record_offset(self.first, j) + next_at(self.first)))
    }

    // The same, where each edition has its own code, as for a step.
    pub fn follow(self, j: usize) -> usize
        requires within { Within self.bytes.now j }
        ensures { (result ≡ next_of self.entry.bytes.now j) × (result < 65536) }
    {
        if self.first {
            self.of_edition(true).follow_by(j)
        } else {
            self.of_edition(false).follow_by(j)
        }
    }
}
