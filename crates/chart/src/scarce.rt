// The chart where the bound leaves no switch to spare, or one. The forward rows are made twice, so that few need to be
// kept: first those before each block of steps; then, from the last block to the first, those of the block, before the
// backward tables go over it.
ghost use Rattle.std.specs.Prelude.{◌≡◌, ◌-◌, ◌≤◌, length};
ghost use Rattle.std.proofs.lemmas.List.Edits.{sets};
ghost use Rattle.tables.specs.Tables.{on_at, off_at};
ghost use Rattle.chart.specs.Blocks.{ToCome, Ready};
ghost use Rattle.chart.specs.Joining.{joining};

use backward::Later;
use forward::{BLOCK, BLOCKS, Run};
use tables::{ROWS, Table};
use units::union;

// Joins the words of the steps from `first` to `last` to the outputs, from the last to the first, and carries what is
// still to come back over them.
fn back_block(
    run: &Run,
    first: usize,
    last: usize,
    tables: &[Table; BLOCK + 1],
    tight: bool,
    us: u64,
    later: &mut Later,
    on: &mut [u64],
    off: &mut [u64],
)
    requires ready { Ready run.now first last tables.now }
    requires to_come { ToCome run.now last later.old }
    requires room_in_on { last ≤ length on.old }
    requires room_in_off { last ≤ length off.old }
    ensures to_come_before { ToCome run.now first later.new }
    ensures on_after { on.new ≡
        sets on.old first
        (joining (on_at tight run.now.start run.now.steps.now run.now.plan.now) on.old first (last - first)) }
    ensures off_after { off.new ≡
        sets off.old first
        (joining (off_at tight us run.now.start run.now.steps.now run.now.plan.now) off.old first (last - first)) }
{
    for i in (first..last).rev() {
        let step = run.step(i);
        let words = later.read_words(step, &tables[i - first + 1], tight, us);
        on[i] = union(words.on, on[i]);
        off[i] = union(words.off, off[i]);
        later.step_back(step);
    }
}

// Joins the words of all steps to the outputs: the units that can be on, and those of us that can be off, with no
// switch to spare, or with one.
pub fn scarce(run: &Run, tight: bool, us: u64, on: &mut [u64], off: &mut [u64])
    requires room_in_on { length run.now.steps.now ≤ length on.old }
    requires room_in_off { length run.now.steps.now ≤ length off.old }
    ensures on_after { on.new ≡
        sets on.old 0
        (joining (on_at tight run.now.start run.now.steps.now run.now.plan.now) on.old 0
        (length run.now.steps.now)) }
    ensures off_after { off.new ≡
        sets off.old 0
        (joining (off_at tight us run.now.start run.now.steps.now run.now.plan.now) off.old 0
        (length run.now.steps.now)) }
{
    let mut tables = [[0u64; ROWS]; BLOCK + 1];
    let mut checkpoints = [[0u64; ROWS]; BLOCKS];
    run.checkpoint(&mut tables, &mut checkpoints);
    let mut later = Later::ended();
    let n = run.plan.len();
    for k in (0..n.div_ceil(BLOCK)).rev() {
        let first = BLOCK * k;
        let last = n.min(first + BLOCK);
        tables[0] = checkpoints[k];
        run.turn_block(first, last, &mut tables);
        back_block(run, first, last, &tables, tight, us, &mut later, on, off);
    }
}
