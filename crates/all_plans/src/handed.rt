// The plans that the library hands out, held to the listing.
use super::numbered::{is_feasible, total_of};
use super::trial::Trial;
use trials::tally::Tally;
use warm::warm_plan;

// Tries the plan of a sheet whose bound is not below the fewest: it is feasible and has the fewest switches.
pub fn try_reply(trial: &Trial) -> Tally {
    trial.try_reply(
        |plan, _| warm_plan(trial.bytes, plan),
        |plan| is_feasible(trial.sheet, plan) && total_of(trial.sheet, plan) == trial.fewest,
    )
}

// Tries the plan of a sheet whose bound is below the fewest.
pub fn try_refusal(trial: &Trial) -> Tally {
    trial.try_refusal(|plan, _| warm_plan(trial.bytes, plan))
}
