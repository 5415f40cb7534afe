// What a listing of all plans of a small sheet finds.
ghost use Rattle.std.specs.Prelude.{◌≤◌, IfSome};

use super::numbered::{FeasiblePlans, total_of};
use super::small::Small;

// How many plans are feasible, and the fewest switches of any of these.
#[derive(Clone, Copy, Debug)]
pub struct Listed {
    pub plans: usize,
    pub fewest: Option<u16>,
}

// Lists all feasible plans. Their count comes nowhere near to the largest number.
pub fn list(sheet: &Small) -> Listed
    ensures { IfSome result.fewest (λ n. n ≤ 24) }
{
    let mut plans: usize = 0;
    let mut fewest = None;
    for plan in FeasiblePlans::of(sheet) {
        let total = total_of(sheet, &plan);
        plans = plans.saturating_add(1);
        fewest = Some(fewest.map_or(total, |so_far: u16| so_far.min(total)));
    }
    Listed { plans, fewest }
}
