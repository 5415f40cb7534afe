// The mathematics of the chart's tables: two tables, one made forward over the steps of a plan and one backward, and
// the words of the chart, which are read from both. specs/Tables.antt has the definitions. A reader should look at two
// laws, `on_charted` and `off_charted` of proofs/Charted.antt: the words of each step are the units that some feasible
// plan within the bound has on there, and those that some has off. The types are those of the code that makes the
// tables.
#![tactic(auto)]

ghost use Rattle.std.specs.Prelude.{◌≡◌};
ghost use Rattle.tables.specs.Tables.{free, held, new, more, less};

use plans::Limits;
use units::{difference, size};

// The rows of a table: one for each unit.
pub const ROWS: usize = 64;

// A table: the row of unit b at the place b.
pub type Table = [u64; ROWS];

// A step of the plan: its limits, the plan's sets before and after it, and the units held before it.
#[derive(Clone, Copy)]
pub struct PlanStep {
    pub limits: Limits,
    pub before: u64,
    pub after: u64,
    pub held: u64,
}

impl PlanStep {
    // The units that may be on after the step and are not.
    #[tactic(auto, unfolding(crate::specs::Tables::free))]
    pub fn free(self) -> u64
        ensures { result ≡ free self.limits self.after }
    {
        difference(self.limits.upper, self.after)
    }

    // The units that are on after the step and need not be.
    #[tactic(auto, unfolding(crate::specs::Tables::held))]
    pub fn held_after(self) -> u64
        ensures { result ≡ held self.limits self.after }
    {
        difference(self.after, self.limits.lower)
    }

    // The units that are switched on.
    #[tactic(auto, unfolding(crate::specs::Tables::new))]
    pub fn entering(self) -> u64
        ensures { result ≡ new self.before self.after }
    {
        difference(self.after, self.before)
    }

    // Whether the step allows one unit more than are on after it.
    #[tactic(auto, unfolding(crate::specs::Tables::more))]
    pub fn allows_more(self) -> bool
        ensures { result ≡ more self.limits self.after }
    {
        (size(self.after) as u64) < self.limits.greatest
    }

    // Whether the step allows one unit less.
    #[tactic(auto, unfolding(crate::specs::Tables::less))]
    pub fn allows_less(self) -> bool
        ensures { result ≡ less self.limits self.after }
    {
        self.limits.least < size(self.after) as u64
    }
}
