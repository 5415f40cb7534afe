// The charts of the library, held to the listing.
use super::numbered::{FeasiblePlans, Plan, total_of};
use super::small::{Small, all_units};
use super::trial::{FILL, Trial};
use trials::tally::Tally;
use warm::warm_chart;

// The units that can be on, and those that can be off, in each step.
#[derive(Clone, Copy, Debug, Default)]
struct Cells {
    on: Plan,
    off: Plan,
}

impl Cells {
    // Adds the cells of a plan that meets the sheet.
    fn add(&mut self, sheet: &Small, plan: &Plan) {
        let all = all_units(sheet.units);
        for k in 0..sheet.steps {
            self.on[k] |= plan[k];
            self.off[k] |= all & !plan[k];
        }
    }

    // The cells of all plans that meet the sheet at that bound.
    fn of(sheet: &Small, bound: u16) -> Cells {
        let mut cells = Cells::default();
        for plan in FeasiblePlans::of(sheet) {
            if total_of(sheet, &plan) <= bound {
                cells.add(sheet, &plan);
            }
        }
        cells
    }
}

// The cells of a step, which are right where both of its words are.
fn cells_of_step(units: usize, right: bool) -> Tally {
    Tally {
        made: units,
        right: if right { units } else { 0 },
    }
}

// Holds the cells of a chart to those listed.
fn compare(sheet: &Small, chart: &Cells, listed: &Cells) -> Tally {
    (0..sheet.steps)
        .map(|k| {
            let right = chart.on[k] == listed.on[k] && chart.off[k] == listed.off[k];
            cells_of_step(sheet.units, right)
        })
        .sum()
}

// Tries the reply of a chart whose bound is not below the fewest.
pub fn try_reply(trial: &Trial) -> Tally {
    trial.try_reply(|on, off| warm_chart(trial.bytes, on, off), |_| true)
}

// Tries the chart of a sheet whose bound is below the fewest.
pub fn try_refusal(trial: &Trial) -> Tally {
    trial.try_refusal(|on, off| warm_chart(trial.bytes, on, off))
}

// Tries the cells of a chart whose bound is not below the fewest.
pub fn try_cells(trial: &Trial) -> Tally {
    if trial.bound < trial.fewest {
        return Tally::default();
    }
    let mut chart = Cells {
        on: [FILL; 8],
        off: [FILL; 8],
    };
    warm_chart(trial.bytes, &mut chart.on, &mut chart.off);
    compare(trial.sheet, &chart, &Cells::of(trial.sheet, trial.bound))
}
