// The forward tables, step by step: which units can be on in place of a held one at no more switches than the plan
// makes so far. specs/Tables.antt of `tables` defines them. Nothing here is an open entry of the library.
#![tactic(auto)]

ghost use Rattle.std.specs.Prelude.{◌≡◌, ◌≤◌, ◌<◌, ◌+◌, [], length, get_or};
ghost use Rattle.plans.specs.Steps.{step_limit};
ghost use Rattle.tables.specs.Places.{plan_step_at};
ghost use Rattle.tables.specs.Tables.{set_at, held_at};

use plans::Limits;
use rows::turn_step;
use tables::{PlanStep, Table};
use units::difference;

mod rows;

// The steps of a block.
pub const BLOCK: usize = 16;
// The most blocks.
pub const BLOCKS: usize = Limits::STEPS / BLOCK;

// The steps of a chamber, a plan for them, and the set before the first.
#[derive(Clone, Copy)]
pub struct Run<'a> {
    pub steps: &'a [Limits],
    pub plan: &'a [u64],
    pub start: u64,
    ghost planned: { length plan.now ≡ length steps.now },
    ghost few: { length steps.now ≤ step_limit },
}

impl Run<'_> {
    ghost use Rattle.forward.specs.Kept.{block_size, RowsKept, AllKept, CheckpointsKept};

    // The set of the plan before the step at i.
    #[tactic(auto, using(crate::proofs::Blocks::set_later), unfolding(tables::specs::Tables::set_at))]
    fn set_before(&self, i: usize) -> u64
        requires { i ≤ length self.now.plan.now }
        ensures { result ≡ set_at self.now.start self.now.plan.now i }
    {
        if i == 0 { self.start } else { self.plan[i - 1] }
    }

    // The units held before the step at i: those that are on and need not be.
    #[tactic(auto, using(crate::proofs::Blocks::held_later), unfolding(plans::specs::Steps::step_at, tables::specs::Tables::held_at))]
    fn held_before(&self, i: usize) -> u64
        requires { i ≤ length self.now.plan.now }
        ensures { result ≡ held_at self.now.steps.now self.now.plan.now i }
    {
        if i == 0 {
            return 0;
        }
        difference(self.plan[i - 1], self.steps[i - 1].lower)
    }

    // The step at i, with the plan's sets before and after it and the units held before.
    #[tactic(auto, unfolding(plans::specs::Steps::step_at))]
    pub fn step(&self, i: usize) -> PlanStep
        requires { i < length self.now.plan.now }
        ensures { result ≡ plan_step_at self.now.start self.now.steps.now self.now.plan.now i }
    {
        PlanStep {
            limits: self.steps[i],
            before: self.set_before(i),
            after: self.plan[i],
            held: self.held_before(i),
        }
    }

    // Writes the rows after each step from `first` to `last`, where those before the step at `first` are in the first
    // table.
    pub fn turn_block(&self, first: usize, last: usize, tables: &mut [Table; BLOCK + 1])
        requires ordered { first ≤ last }
        requires within_block { last ≤ first + block_size }
        requires within_plan { last ≤ length self.now.plan.now }
        requires first_kept { RowsKept self.now first (get_or tables.old 0 []) }
        ensures { AllKept self.now first last tables.new }
    {
        for i in first..last {
            let (done, rest) = tables.split_at_mut(i - first + 1);
            turn_step(self.step(i), &done[i - first], &mut rest[0]);
        }
    }

    // Writes the rows before each block to `checkpoints`. It works in `tables`.
    pub fn checkpoint(&self, tables: &mut [Table; BLOCK + 1], checkpoints: &mut [Table; BLOCKS])
        ensures { CheckpointsKept self.now checkpoints.new }
    {
        for k in 1..self.plan.len().div_ceil(BLOCK) {
            tables[0] = checkpoints[k - 1];
            self.turn_block(BLOCK * k - BLOCK, BLOCK * k, tables);
            checkpoints[k] = tables[BLOCK];
        }
    }
}
