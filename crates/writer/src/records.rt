// The bytes of the header and of the records of a sheet that is written.
ghost use Rattle.std.specs.Prelude.{◌≡◌, ◌≤◌};
ghost use Rattle.format.specs.Format.{record_limit};
ghost use Rattle.format.specs.Writing.{header_bytes, record_bytes, link_in};

use format::Step;
use sheet::Sheet;

// The number that record j of n holds of the record after it, 0 if it is the last; the header counts as record 0.
pub fn link_in(j: usize, n: usize) -> u16
    requires { n ≤ record_limit }
    ensures { result ≡ link_in j n }
{
    if j < n { j as u16 + 1 } else { 0 }
}

// The header of a sheet of n records, each of which names the next.
pub(crate) fn header(units: u8, n: usize, bound: u16, start: u64) -> [u8; Sheet::HEADER_SIZE]
    requires { n ≤ record_limit }
    ensures { result ≡ header_bytes units n (link_in 0 n) bound start }
{
    let mut bytes = [0; Sheet::HEADER_SIZE];
    bytes[..Sheet::EDITION_AT].copy_from_slice(&Sheet::LETTERS);
    bytes[Sheet::EDITION_AT] = Sheet::FIRST_EDITION;
    bytes[Sheet::UNITS_AT] = units;
    bytes[Sheet::RECORDS_AT..Sheet::FIRST_AT].copy_from_slice(&(n as u16).to_le_bytes());
    bytes[Sheet::FIRST_AT..Sheet::BOUND_AT].copy_from_slice(&link_in(0, n).to_le_bytes());
    bytes[Sheet::BOUND_AT..Sheet::CHAMBERS_AT].copy_from_slice(&bound.to_le_bytes());
    bytes[Sheet::START_AT..].copy_from_slice(&start.to_le_bytes());
    bytes
}

// Record j of n, which holds a step.
pub fn record(x: Step, j: usize, n: usize) -> [u8; Sheet::RECORD_SIZE]
    requires { n ≤ record_limit }
    ensures { result ≡ record_bytes x (link_in j n) }
{
    let mut bytes = [0; Sheet::RECORD_SIZE];
    bytes[..Sheet::UPPER_AT].copy_from_slice(&x.lower.to_le_bytes());
    bytes[Sheet::UPPER_AT..Sheet::LEAST_AT].copy_from_slice(&x.upper.to_le_bytes());
    bytes[Sheet::LEAST_AT] = x.least;
    bytes[Sheet::GREATEST_AT] = x.greatest;
    bytes[Sheet::NEXT_AT..Sheet::TAG_AT].copy_from_slice(&link_in(j, n).to_le_bytes());
    bytes[Sheet::TAG_AT..].copy_from_slice(&x.tag.to_le_bytes());
    bytes
}
