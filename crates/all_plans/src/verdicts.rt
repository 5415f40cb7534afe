// The verdicts of the library, held to the listing.
use super::numbered::{FeasiblePlans, Plan, meets, plan_at, plans_of, total_of};
use super::trial::Trial;
use trials::tally::Tally;
use warm::warm_verdict;

// Of a sheet with more plans than this, only the feasible ones are judged.
const MANY: usize = 4096;

// Tries the verdict on a plan.
fn try_plan(trial: &Trial, plan: &Plan) -> Tally {
    let sheet = trial.sheet;
    let reply = warm_verdict(trial.bytes, &plan[..sheet.steps]);
    Tally::from(
        reply.refusal == 0
            && reply.place == 0
            && reply.total == u32::from(total_of(sheet, plan))
            && reply.accepted == u32::from(meets(sheet, trial.bound, plan)),
    )
}

// Tries the verdict on all plans, or on the feasible ones where there are many.
pub fn try_plans(trial: &Trial) -> Tally {
    let plans = plans_of(trial.sheet);
    if MANY < plans {
        return FeasiblePlans::of(trial.sheet)
            .map(|plan| try_plan(trial, &plan))
            .sum();
    }
    (0..plans)
        .map(|p| try_plan(trial, &plan_at(trial.sheet, p)))
        .sum()
}

// Tries the verdict on all plans of a unit more, where these are few.
pub fn try_unit_more(trial: &Trial) -> Tally {
    if 2 < trial.sheet.units {
        return Tally::default();
    }
    let sheet = trial.sheet.with_unit();
    try_plans(&Trial {
        sheet: &sheet,
        ..*trial
    })
}

// Tries the verdict on a plan whose words are not as many as the steps.
fn try_length(trial: &Trial, plan: &[u64]) -> Tally {
    let reply = warm_verdict(trial.bytes, plan);
    Tally::from(
        reply.refusal == 10
            && reply.place == trial.sheet.steps as u32
            && reply.total == 0
            && reply.accepted == 0,
    )
}

// Tries the verdict on a plan that is a word too long, and one that is a word too short.
pub fn try_lengths(trial: &Trial) -> Tally {
    let plan = plan_at(trial.sheet, 0);
    let steps = trial.sheet.steps;
    let longer = try_length(trial, &plan[..steps + 1]);
    match steps.checked_sub(1) {
        Some(words) => longer + try_length(trial, &plan[..words]),
        None => longer,
    }
}
