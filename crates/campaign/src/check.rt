// The check of a plan made elsewhere: whether each step's set is feasible, and how many switches it makes.
ghost use Rattle.std.specs.Prelude.{◌≡◌, true, length};
ghost use Rattle.units.specs.Sets.{is_subset, intersection, size};
ghost use Rattle.chambers.specs.Chambers.{numbered, count_fits, counts, fits};
ghost use Rattle.plans.specs.Plans.{is_feasible};
ghost use Rattle.plans.specs.Switch.{total};
ghost use Rattle.format.specs.Format.{limits_of, start_of};
ghost use Rattle.promises.specs.Common.{limits_on, fits_on};

use format::ChamberStep;
use sheet::Sheet;
use sheet::parts::{Chamber, Chambers, deal, part_sizes};
use units::{difference, intersection, is_subset, size};

// What is known of a plan: whether it is feasible, and its total, feasible or not.
#[derive(Drop)]
pub struct Checked {
    pub feasible: bool,
    pub total: u32,
}

// How many of these units a set has. Of an empty chamber nothing is counted.
fn count_in(set: u64, units: u64) -> u32
    ensures { result ≡ size (intersection set units) }
{
    if units == 0 {
        return 0;
    }
    size(intersection(set, units))
}

// Whether a set between the lower and the upper set of a step has in a chamber a number of units from the least to the
// greatest that the step asks for there: whether it is one of the sizes of the chamber's part of the step.
fn count_fits(x: ChamberStep, chamber: Chamber, set: u64) -> bool
    requires lower_in_set { is_subset x.lower set ≡ true }
    requires set_in_upper { is_subset set x.upper ≡ true }
    ensures { result ≡ count_fits chamber (limits_of x) set }
{
    let Some(sizes) = part_sizes(x, chamber) else {
        return false;
    };
    (sizes.few..=sizes.many).contains(&count_in(set, chamber.units))
}

// Whether it does so in each chamber.
fn counts_fit(x: ChamberStep, chambers: Chambers, set: u64) -> bool
    requires lower_in_set { is_subset x.lower set ≡ true }
    requires set_in_upper { is_subset set x.upper ≡ true }
    ensures { result ≡ counts (numbered 0 chambers.units) (limits_of x) set }
{
    // Four calls: a loop stays one in the compiled code, which copies the numbers of the step for each chamber.
    count_fits(x, chambers.at(0), set)
        && count_fits(x, chambers.at(1), set)
        && count_fits(x, chambers.at(2), set)
        && count_fits(x, chambers.at(3), set)
}

// Whether a set is feasible in a step. Chambers, step and set are given one by one, as `fits` of the definitions has
// them.
#[tactic(auto, unfolding(chambers::specs::Chambers::fits))]
fn set_fits(x: ChamberStep, chambers: Chambers, set: u64) -> bool
    ensures { result ≡ fits (numbered 0 chambers.units) (limits_of x) set }
{
    is_subset(x.lower, set) && is_subset(set, x.upper) && counts_fit(x, chambers, set)
}

// The check of a plan that has a word for each step of a sheet.
pub fn check_read(sheet: Sheet, plan: &[u64]) -> Checked
    requires { length plan.now ≡ sheet.summary.steps }
    ensures feasible_value { result.feasible ≡ is_feasible (fits_on sheet.entry.bytes.now) (limits_on sheet.entry.bytes.now) plan.now }
    ensures total_value { result.total ≡ total (start_of sheet.entry.bytes.now) plan.now }
{
    let header = sheet.summary.header;
    let chambers = deal(header.sizes);
    let mut before = header.start;
    let mut feasible = true;
    let mut total = 0;
    for (step, set) in sheet.steps().zip(plan) {
        feasible &= set_fits(step, chambers, *set);
        total += size(difference(*set, before));
        before = *set;
    }
    Checked { feasible, total }
}
