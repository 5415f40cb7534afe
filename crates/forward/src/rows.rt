// The rows of a table: joined over a set of units, and turned over a step.
ghost use Rattle.std.specs.Prelude.{◌≡◌, ℕ, ◌<◌};
ghost use Rattle.units.specs.Sets.{bit};
ghost use Rattle.tables.specs.Places.{rows_of};
ghost use Rattle.tables.specs.Tables.{row_count, gathered, held, row_before, turned, turned_row};

use tables::{PlanStep, Table};
use units::{Units, choose, contains, difference, intersection, meets, union};

// The rows of the units of a set, joined.
fn gather(table: &Table, set: u64) -> u64
    ensures { result ≡ gathered row_count set (rows_of table.now) }
{
    let mut found = 0;
    for b in Units::of(set) {
        found = union(found, table[b as usize]);
    }
    found
}

// The row of a unit after a step, from its row before.
#[tactic(auto, unfolding(tables::specs::Tables::turned_row))]
fn turn_row(free: u64, entering: u64, coming: u64, on: bool, row: u64) -> u64
    ensures { result ≡ turned_row free entering coming on row }
{
    if on && !meets(row, entering) {
        intersection(free, union(coming, row))
    } else {
        free
    }
}

// The row of unit b, if b is in the set, or an empty one.
#[tactic(auto, unfolding(tables::specs::Tables::row_before))]
fn row_before(table: &Table, set: u64, b: u32) -> u64
    requires { b < 64 }
    ensures { result ≡ row_before set (rows_of table.now) b }
{
    choose(contains(set, b), table[b as usize], 0)
}

// Writes the rows of the units held after a step to `next`, where `table` has those of the units held before it.
pub fn turn_step(step: PlanStep, table: &Table, next: &mut Table)
    ensures { (b : ℕ) → bit (held step.limits step.after) b ≡ 1
        → rows_of next.new b ≡ turned step.limits step.before step.after step.held (rows_of table.now) b }
{
    let free = step.free();
    let entering = step.entering();
    let coming = union(
        step.before,
        gather(table, difference(step.held, step.after)),
    );
    for b in Units::of(step.held_after()) {
        let row = row_before(table, step.held, b);
        next[b as usize] = turn_row(free, entering, coming, contains(step.before, b), row);
    }
}
