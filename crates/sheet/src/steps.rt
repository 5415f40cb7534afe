// The search for the first faulty step: refusals 14, 6 and 7.
ghost use Rattle.std.specs.Prelude.{◌≡◌, true, ◌≤◌};
ghost use Rattle.chambers.specs.Chambers.{numbered, sum, chambers_of};
ghost use Rattle.format.specs.Answer.{Given, unless};
ghost use Rattle.format.specs.Chain.{Inside, steps_from};
ghost use Rattle.format.specs.Format.{record_limit, unit_limit, sizes, sizes_list};
ghost use Rattle.format.specs.Reading.{step_causes, steps_causes};
ghost use Rattle.format.specs.Told.{told};
ghost use Rattle.sheet.specs.Few.{Alone};

use super::iter::Steps;
use super::parts::{Chambers, deal, sizes_by};
use super::record::Records;
use format::{Cause, ChamberStep, Refusal, Summary};

// Refusal 14, 6 or 7 of step number i, where it is faulty.
#[tactic(auto, using(std::proofs::lemmas::Bool::Decides::nat_tests), unfolding(format::specs::Answer::unless, chambers::specs::Chambers::some_fits))]
fn check_step(
    first: bool,
    x: ChamberStep,
    d: u32,
    chambers: Chambers,
    i: u32,
) -> Result<(), Refusal>
    requires alone { first ≡ true → Alone chambers.units x }
    requires d_le_unit_limit { d ≤ unit_limit }
    ensures { told result ≡ unless (step_causes (numbered 0 chambers.units) d i x) (Given tt) }
{
    let cause = if x.reserved != 0 {
        Cause::ReservedBytes
    } else if units::has_unit_from(x.upper, d) {
        Cause::UpperSet
    } else if sizes_by(first, x, chambers).is_none() {
        Cause::NoSet
    } else {
        return Ok(());
    };
    Err(Refusal { cause, place: i })
}

// The refusal of the first faulty step of a sheet with that header and so many steps.
fn search_by(records: Records<'_>, x: Summary) -> Result<(), Refusal>
    requires sizes_value { x.header.sizes ≡ sizes records.bytes.now }
    requires units_le_unit_limit { x.header.units ≤ unit_limit }
    requires all_dealt { sum (sizes_list x.header.sizes) ≡ x.header.units }
    requires steps_le_record_limit { x.steps ≤ record_limit }
    requires inside { Inside records.bytes.now 0 x.steps }
    ensures { told result ≡
        unless (steps_causes (chambers_of (sizes_list x.header.sizes)) x.header.units 1 (steps_from records.entry.bytes.now 0 x.steps)) (Given tt) }
{
    let header = x.header;
    let chambers = deal(header.sizes);
    for (i, step) in Steps::of(records, x.steps as usize).enumerate() {
        check_step(records.first, step, header.units, chambers, i as u32 + 1)?;
    }
    Ok(())
}

// The same, where each edition has its own code: the places of a record are then known numbers, in the whole loop.
pub fn search_steps(s: &[u8], x: Summary) -> Result<(), Refusal>
    requires sizes_value { x.header.sizes ≡ sizes s.now }
    requires units_le_unit_limit { x.header.units ≤ unit_limit }
    requires all_dealt { sum (sizes_list x.header.sizes) ≡ x.header.units }
    requires steps_le_record_limit { x.steps ≤ record_limit }
    requires inside { Inside s.now 0 x.steps }
    ensures { told result ≡
        unless (steps_causes (chambers_of (sizes_list x.header.sizes)) x.header.units 1 (steps_from s.now 0 x.steps)) (Given tt) }
{
    let records = Records::of(s);
    if records.first {
        search_by(records.of_edition(true), x)
    } else {
        search_by(records.of_edition(false), x)
    }
}
