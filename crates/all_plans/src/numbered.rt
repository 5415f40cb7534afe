// The plans of a small sheet, each under a number: to the base of 2^units, its digits are the sets of the steps, the
// first step's digit last.
//
// Whether a plan is feasible and how many switches it has is worked out set by set, and by nothing of the library.
ghost use Rattle.std.specs.Prelude.{◌<◌, ◌≤◌, ◌-◌, IfSome};
ghost use Rattle.std.specs.Iterator.{at_most};

use super::feasible::is_in;
use super::small::{Small, all_units, size};

// One set per step, and room for more.
pub type Plan = [u64; 8];

// How many binary digits the sets of the first k steps take in the number of a plan.
fn digits_of(sheet: &Small, k: usize) -> usize
    requires { k ≤ 6 }
    ensures { result ≤ 24 }
{
    sheet.units * k
}

// How many plans there are.
pub fn plans_of(sheet: &Small) -> usize
    ensures { result ≤ 16777216 }
{
    1 << digits_of(sheet, sheet.steps)
}

// The sets of plan p.
pub fn plan_at(sheet: &Small, p: usize) -> Plan {
    let all = all_units(sheet.units);
    let mut plan = [0; 8];
    for k in 0..6 {
        plan[k] = (p >> digits_of(sheet, k)) as u64 & all;
    }
    plan
}

// The last step, from 0, whose set does not meet its limits.
fn last_fault(sheet: &Small, plan: &Plan) -> Option<usize>
    ensures { IfSome result (λ k. k < 6) }
{
    (0..sheet.steps)
        .rev()
        .find(|k| !is_in(sheet.feasible[*k], plan[*k]))
}

// Whether each set of a plan meets the limits of its step.
pub fn is_feasible(sheet: &Small, plan: &Plan) -> bool {
    last_fault(sheet, plan).is_none()
}

// The plan to look at after plan p, whose last fault is given. No plan with the same sets from that step on is
// feasible, and p is the first of these that is come to, with empty sets before the step: all of them are passed
// over.
fn after(sheet: &Small, p: usize, fault: Option<usize>) -> usize
    requires p_bound { p < 33554432 }
    requires fault_bound { IfSome fault (λ k. k < 6) }
    ensures { p < result }
{
    match fault {
        None => p + 1,
        Some(k) => p + (1 << digits_of(sheet, k)),
    }
}

// The switches of a plan: the units of each set that are not in the set before, which is the start set for the first.
pub fn total_of(sheet: &Small, plan: &Plan) -> u16
    ensures { result ≤ 24 }
{
    let mut before = sheet.start;
    let mut total = 0;
    for set in &plan[..sheet.steps] {
        total += u16::from(size(*set & !before));
        before = *set;
    }
    total
}

// Whether a plan meets the sheet at that bound.
pub fn meets(sheet: &Small, bound: u16, plan: &Plan) -> bool {
    is_feasible(sheet, plan) && total_of(sheet, plan) <= bound
}

// The feasible plans from one number on, by their numbers.
#[derive(Drop)]
pub struct FeasiblePlans<'a> {
    sheet: &'a Small,
    next: usize,
}

impl<'a> FeasiblePlans<'a> {
    pub fn of(sheet: &'a Small) -> FeasiblePlans<'a> {
        FeasiblePlans { sheet, next: 0 }
    }
}

impl<'a> Iterator for FeasiblePlans<'a> {
    type Item = Plan;

    ghost remaining = { λ s. at_most (33554432 - s.next) };

    fn next(&mut self) -> Option<Plan> {
        let plans = plans_of(self.sheet);
        // no `for`, since a turn may pass over many plans
        while self.next < plans {
            let plan = plan_at(self.sheet, self.next);
            let fault = last_fault(self.sheet, &plan);
            self.next = after(self.sheet, self.next, fault);
            if fault.is_none() {
                return Some(plan);
            }
        }
        None
    }
}
