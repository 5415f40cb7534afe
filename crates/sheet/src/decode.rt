// The steps of a sheet that passes the reader, as the planner takes them, in one chamber at a time: the chamber's part
// of a step's lower and upper set, and the least and the greatest size of a feasible set of that part, which stand for
// its two numbers.
ghost use Rattle.std.specs.Prelude.{◌≡◌, map, ◌≤◌, length};
ghost use Rattle.std.proofs.lemmas.List.Edits.{sets};
ghost use Rattle.chambers.specs.Chambers.{part_of, parts_of};
ghost use Rattle.plans.specs.Switch.{sized};
ghost use Rattle.format.specs.Chain.{Inside, steps_from};
ghost use Rattle.format.specs.Format.{limits_of};
ghost use Rattle.format.specs.Reading.{steps_of};

use super::Sheet;
use super::iter::Steps;
use super::parts::{Chamber, part_sizes};
use super::record::Records;
use format::ChamberStep;
use plans::Limits;
use units::intersection;

// What the planner is given of a step in a chamber: the chamber's part of the step, with the sizes of its feasible
// sets in the place of its two numbers.
fn sized_part(x: ChamberStep, chamber: Chamber) -> Limits
    ensures { result ≡ sized (part_of chamber (limits_of x)) }
{
    let Chamber { number, units } = chamber;
    let (least, greatest) = match part_sizes(x, chamber) {
        Some(sizes) => (u64::from(sizes.few), u64::from(sizes.many)),
        None => (u64::from(x.least[number]), u64::from(x.greatest[number])),
    };
    Limits {
        lower: intersection(x.lower, units),
        upper: intersection(x.upper, units),
        least,
        greatest,
    }
}

// Fills the first n places with what the first n steps of the chain ask of a chamber, and leaves the places after
// them.
fn decode_by(records: Records<'_>, n: usize, chamber: Chamber, steps: &mut [Limits])
    requires inside { Inside records.bytes.now 0 n }
    requires room { n ≤ length steps.old }
    ensures { steps.new ≡
        sets steps.old 0 (map sized (parts_of chamber (map limits_of (steps_from records.entry.bytes.now 0 n)))) }
{
    for (i, step) in Steps::of(records, n).enumerate() {
        steps[i] = sized_part(step, chamber);
    }
}

// The same, where each edition has its own code, which is faster.
pub fn decode_first(bytes: &[u8], n: usize, chamber: Chamber, steps: &mut [Limits])
    requires inside { Inside bytes.now 0 n }
    requires room { n ≤ length steps.old }
    ensures { steps.new ≡
        sets steps.old 0 (map sized (parts_of chamber (map limits_of (steps_from bytes.now 0 n)))) }
{
    let records = Records::of(bytes);
    if records.first {
        decode_by(records.of_edition(true), n, chamber, steps);
    } else {
        decode_by(records.of_edition(false), n, chamber, steps);
    }
}

// The same for all steps of a sheet.
pub fn decode(sheet: Sheet, chamber: Chamber, steps: &mut [Limits])
    requires room { sheet.summary.steps ≤ length steps.old }
    ensures { steps.new ≡
        sets steps.old 0 (map sized (parts_of chamber (map limits_of (steps_of sheet.entry.bytes.now)))) }
{
    decode_first(sheet.bytes, sheet.summary.steps as usize, chamber, steps);
}
