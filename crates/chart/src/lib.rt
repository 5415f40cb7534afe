// The chart: which units can be on in each step, and which can be off, over all feasible plans within a bound. Its
// words are read from two tables, one made forward over the steps and one backward; specs/Tables.antt of `tables`
// defines them, and laws there say that they are the chart. The time is linear in the number of steps and in the
// number of units that are on. Nothing here is an open entry of the library.
#![tactic(auto)]

ghost use Rattle.std.specs.Prelude.{◌≡◌, ◌≤◌, length};
ghost use Rattle.std.proofs.lemmas.List.Edits.{sets};
ghost use Rattle.tables.specs.Tables.{on_by_slack, off_by_slack};
ghost use Rattle.chart.specs.Joining.{joining};

use ample::ample;
use forward::Run;
use scarce::scarce;

pub mod ample;
pub mod scarce;

// Joins the words of the chart to what the first places of the outputs hold, and leaves the others as they were: in
// `on` the units that can be on in each step, in `off` those of us that can be off. The run's plan is the one that is
// handed out, and the bound leaves `slack` switches to spare. The outputs are two slices, as warm_chart of the C
// interface hands out two arrays.
#[tactic(auto, unfolding(tables::specs::Tables::on_by_slack, tables::specs::Tables::off_by_slack))]
pub fn draw_chart(run: &Run, us: u64, slack: u32, on: &mut [u64], off: &mut [u64])
    requires room_in_on { length run.now.steps.now ≤ length on.old }
    requires room_in_off { length run.now.steps.now ≤ length off.old }
    ensures on_after { on.new ≡
        sets on.old 0
        (joining (on_by_slack slack run.now.start run.now.steps.now run.now.plan.now) on.old 0
        (length run.now.steps.now)) }
    ensures off_after { off.new ≡
        sets off.old 0
        (joining (off_by_slack us slack run.now.start run.now.steps.now run.now.plan.now) off.old 0
        (length run.now.steps.now)) }
{
    if 1 < slack {
        ample(run.steps, us, on, off);
        return;
    }
    scarce(run, slack == 0, us, on, off)
}
