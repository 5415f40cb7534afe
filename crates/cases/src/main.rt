// Reads the sheets at the edges of the format that the requirements name, and writes what the reader answers to
// each. The file stdout has what it must answer, as the requirements say it.
#![tactic(auto)]

ghost use Rattle.std.specs.Prelude.{◌≤◌};

use sheet::open::read;
use std::io;
use trials::layout::{Edition, Head, Limits, SheetBytes};

// The limits of a step in which any set within the upper set may be on, in whatever chambers.
fn any_of(upper: u64) -> Limits {
    Limits {
        lower: 0,
        upper,
        least: [0; 4],
        greatest: [u8::MAX; 4],
    }
}

// The limits of such a step that asks for a unit of chamber 2.
fn some_of_second(upper: u64) -> Limits {
    Limits {
        least: [0, 1, 0, 0],
        ..any_of(upper)
    }
}

// Writes a line: the name of a sheet, and what the reader answers to it.
fn report(rt: &impl Print, name: &str, sheet: &[u8]) -> io::Result<()> {
    match read(sheet) {
        Ok(_) => println!(rt; "{name}: passes"),
        Err(refusal) => {
            println!(rt;
                "{name}: refusal {}, place {}",
                refusal.cause.number(),
                refusal.place
            )
        }
    }
}

// The longest sheet of an edition, of one unit.
fn longest(edition: Edition) -> SheetBytes {
    let head = Head {
        units: 1,
        records: 256,
        sizes: [1, 0, 0, 0],
        ..Head::default()
    };
    let mut sheet = SheetBytes::new(edition, head);
    sheet.put_steps(&[any_of(1)]);
    sheet
}

// Fewer bytes than a header has, the longest sheet of edition 1, a byte more, which no header goes with, and more
// bytes than any sheet has. The numbers are those of the requirements, and not the reader's own.
fn report_lengths(rt: &impl Print) -> io::Result<()> {
    let sheet = longest(Edition::First);
    report(rt, "length 23", sheet.first(23))?;
    report(rt, "length 6168", sheet.first(6168))?;
    report(rt, "length 6169", sheet.first(6169))?;
    report(rt, "length 8217", sheet.first(8217))
}

// A sheet of so many units with one step, which has that upper set.
fn report_upper(rt: &impl Print, name: &str, units: u8, upper: u64) -> io::Result<()> {
    let head = Head {
        units,
        records: 1,
        ..Head::default()
    };
    let mut sheet = SheetBytes::new(Edition::First, head);
    sheet.put_steps(&[any_of(upper)]);
    report(rt, name, sheet.whole())
}

// ---- edition 2

// The longest sheet, and a byte more.
fn report_chamber_lengths(rt: &impl Print) -> io::Result<()> {
    let sheet = longest(Edition::Second);
    report(rt, "edition 2, length 8216", sheet.first(8216))?;
    report(rt, "edition 2, length 8217", sheet.first(8217))
}

// A sheet of so many units, with chambers of these sizes, one step, in record 1, and a spare record.
fn chambered(units: u8, sizes: [u8; 4], limits: Limits) -> SheetBytes {
    let head = Head {
        units,
        records: 2,
        sizes,
        ..Head::default()
    };
    let mut sheet = SheetBytes::new(Edition::Second, head);
    sheet.put_link(0, 1);
    sheet.put_limits(1, limits);
    sheet
}

// Such a sheet.
fn report_chambers(
    rt: &impl Print,
    name: &str,
    units: u8,
    sizes: [u8; 4],
    limits: Limits,
) -> io::Result<()> {
    report(rt, name, chambered(units, sizes, limits).whole())
}

// Such a sheet, of two units in chambers 1 and 3, with 256 in the bytes of record j that are zero.
fn report_reserved(rt: &impl Print, name: &str, j: usize, upper: u64) -> io::Result<()>
    requires { j ≤ 2 }
{
    let mut sheet = chambered(2, [1, 0, 1, 0], any_of(upper));
    sheet.put_reserved(j, 256);
    report(rt, name, sheet.whole())
}

fn main(rt: HostRuntime) -> io::Result<()> {
    report_lengths(&rt)?;
    report_upper(&rt, "d = 64, upper all ones", 64, u64::MAX)?;
    report_upper(&rt, "d = 63, unit 63 in upper", 63, 1 << 63)?;
    report_chamber_lengths(&rt)?;
    report_chambers(
        &rt,
        "edition 2, chambers of 1, 0, 1 and 0 units, d = 2",
        2,
        [1, 0, 1, 0],
        any_of(3),
    )?;
    report_chambers(
        &rt,
        "edition 2, chambers of 1, 0, 1 and 0 units, d = 3",
        3,
        [1, 0, 1, 0],
        any_of(3),
    )?;
    report_chambers(
        &rt,
        "edition 2, chambers of 255, 2, 0 and 0 units, d = 1",
        1,
        [255, 2, 0, 0],
        any_of(1),
    )?;
    report_reserved(&rt, "edition 2, bytes 26 to 27 of a step not zero", 1, 3)?;
    report_reserved(
        &rt,
        "edition 2, bytes 26 to 27 of a spare record not zero",
        2,
        3,
    )?;
    report_reserved(
        &rt,
        "edition 2, bytes 26 to 27 of a step not zero, unit 2 in upper, d = 2",
        1,
        7,
    )?;
    report_chambers(
        &rt,
        "edition 2, least number 1 in an empty chamber",
        2,
        [1, 0, 1, 0],
        some_of_second(3),
    )?;
    report_chambers(
        &rt,
        "edition 2, least number 1 in a chamber of 1 unit",
        2,
        [1, 1, 0, 0],
        some_of_second(3),
    )
}
