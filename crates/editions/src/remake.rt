// A sheet of one edition as one of the other: its header, and each of its records, those off the chain too. `first`
// goes beside the bytes and is not theirs: it says which edition is wanted, and the bytes are of the other one.
ghost use Rattle.std.specs.Prelude.{◌≡◌, ◌∷◌, true, false, not, ◌≤◌, length};
ghost use Rattle.format.specs.Editions.{zeros, header_in, record_in, in_edition, remade};
ghost use Rattle.format.specs.Format.{header_size, record_limit, record_size, sheet_length, is_first, records_of};
ghost use Rattle.promises.specs.Common.{written};

use sheet::Sheet;
use sheet::record::{is_first, record_offset, sheet_length};

// A number for each chamber: that of the first, and zeros for the others.
fn numbers(x: u8) -> [u8; Sheet::CHAMBERS]
    ensures { result ≡ x ∷ zeros 3 }
{
    [x, 0, 0, 0]
}

// The header of a sheet in that edition: as it was, but for the edition and the numbers of units of the chambers.
fn header(first: bool, s: &[u8]) -> [u8; Sheet::HEADER_SIZE]
    requires { header_size ≤ length s.now }
    ensures { result ≡ header_in first s.now }
{
    let mut bytes = [0; Sheet::HEADER_SIZE];
    bytes.copy_from_slice(&s[..Sheet::HEADER_SIZE]);
    if first {
        bytes[Sheet::EDITION_AT] = Sheet::FIRST_EDITION;
        bytes[Sheet::CHAMBERS_AT..Sheet::START_AT].copy_from_slice(&numbers(0));
    } else {
        bytes[Sheet::EDITION_AT] = Sheet::SECOND_EDITION;
        bytes[Sheet::CHAMBERS_AT..Sheet::START_AT].copy_from_slice(&numbers(s[Sheet::UNITS_AT]));
    }
    bytes
}

// A record of the second edition as one of the first: the numbers of the other chambers are left out.
fn first_record(b: &[u8]) -> [u8; Sheet::RECORD_SIZE]
    requires { length b.now ≡ record_size false }
    ensures { result ≡ record_in true b.now }
{
    let mut bytes = [0; Sheet::RECORD_SIZE];
    bytes[..Sheet::LEAST_AT].copy_from_slice(&b[..Sheet::LEAST_AT]);
    bytes[Sheet::LEAST_AT] = b[Sheet::LEAST_AT];
    bytes[Sheet::GREATEST_AT] = b[Sheet::CHAMBER_GREATEST_AT];
    bytes[Sheet::NEXT_AT..Sheet::TAG_AT].copy_from_slice(
        &b[Sheet::CHAMBER_NEXT_AT..Sheet::RESERVED_AT],
    );
    bytes[Sheet::TAG_AT..].copy_from_slice(&b[Sheet::CHAMBER_TAG_AT..]);
    bytes
}

// A record of the first edition as one of the second: the numbers of the other chambers are zeros.
fn second_record(b: &[u8]) -> [u8; Sheet::CHAMBER_RECORD_SIZE]
    requires { length b.now ≡ record_size true }
    ensures { result ≡ record_in false b.now }
{
    let least = numbers(b[Sheet::LEAST_AT]);
    let greatest = numbers(b[Sheet::GREATEST_AT]);
    let mut bytes = [0; Sheet::CHAMBER_RECORD_SIZE];
    bytes[..Sheet::LEAST_AT].copy_from_slice(&b[..Sheet::LEAST_AT]);
    bytes[Sheet::LEAST_AT..Sheet::CHAMBER_GREATEST_AT].copy_from_slice(&least);
    bytes[Sheet::CHAMBER_GREATEST_AT..Sheet::CHAMBER_NEXT_AT].copy_from_slice(&greatest);
    bytes[Sheet::CHAMBER_NEXT_AT..Sheet::RESERVED_AT].copy_from_slice(
        &b[Sheet::NEXT_AT..Sheet::TAG_AT],
    );
    bytes[Sheet::CHAMBER_TAG_AT..].copy_from_slice(&b[Sheet::TAG_AT..]);
    bytes
}

// Puts a record of the other edition as one of that edition.
fn put_record(first: bool, b: &[u8], out: &mut [u8])
    requires whole { length b.now ≡ record_size (not first) }
    requires room { length out.old ≡ record_size first }
    ensures { out.new ≡ record_in first b.now }
{
    if first {
        out.copy_from_slice(&first_record(b));
    } else {
        out.copy_from_slice(&second_record(b));
    }
}

// Puts a sheet of the other edition, as one of that edition, into the first places of the output.
fn put_remade(first: bool, s: &[u8], out: &mut [u8])
    requires few { records_of s.now ≤ record_limit }
    requires whole { length s.now ≡ sheet_length (not first) (records_of s.now) }
    requires room { sheet_length first (records_of s.now) ≤ length out.old }
    ensures { out.new ≡ written (remade first s.now) out.old }
{
    out[..Sheet::HEADER_SIZE].copy_from_slice(&header(first, s));
    let size = if first {
        Sheet::CHAMBER_RECORD_SIZE
    } else {
        Sheet::RECORD_SIZE
    };
    for (i, record) in s[Sheet::HEADER_SIZE..].chunks_exact(size).enumerate() {
        put_record(
            first,
            record,
            &mut out[record_offset(first, i + 1)..sheet_length(first, i + 1)],
        );
    }
}

// Puts bytes into the first places of the output. `copy_from_slice` of a number of bytes that is known only here would
// need memmove of the host, for which include/warm.h does not ask.
fn copy(s: &[u8], out: &mut [u8])
    requires { length s.now ≤ length out.old }
    ensures { out.new ≡ written s.now out.old }
{
    for (i, byte) in s.iter().enumerate() {
        out[i] = *byte;
    }
}

// Puts a sheet, in that edition, into the first places of the output, and leaves all others.
pub(crate) fn put_sheet(first: bool, s: &[u8], out: &mut [u8])
    requires few { records_of s.now ≤ record_limit }
    requires whole { length s.now ≡ sheet_length (is_first s.now) (records_of s.now) }
    requires room { sheet_length first (records_of s.now) ≤ length out.old }
    ensures { out.new ≡ written (in_edition first s.now) out.old }
{
    if is_first(s) == first {
        copy(s, out);
    } else {
        put_remade(first, s, out);
    }
}
