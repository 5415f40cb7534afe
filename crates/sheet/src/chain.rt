// The walk along the chain of records: refusals 4 and 5, or the number of steps.
ghost use Rattle.std.specs.Prelude.{◌≡◌, ◌≤◌, ◌<◌, length};
ghost use Rattle.format.specs.Stages.{chain_read};
ghost use Rattle.format.specs.Format.{sheet_length, record_limit, is_first};
ghost use Rattle.format.specs.Told.{told};
ghost use Rattle.sheet.specs.Walking.{at_header, is_met, onto};

use super::record::Records;
use format::{Cause, Refusal};
use units::{choose, contains, insert};

// How far a walk has come: a mark for each record that it has met, one bit a record, the record that it stands at (0
// for the header), and how many records it has met.
#[derive(Clone, Copy)]
pub struct Walk {
    pub marks: [u64; 4],
    pub at: usize,
    pub steps: usize,
}

impl Walk {
    // The walk before its first link: at the header, with no record met.
    pub fn begin() -> Walk
        ensures { result ≡ at_header }
    {
        Walk {
            marks: [0; 4],
            at: 0,
            steps: 0,
        }
    }

    // Whether the walk has met record j.
    #[tactic(auto, unfolding(crate::specs::Walking::is_met))]
    pub fn has_met(self, j: usize) -> bool
        requires j_nonzero { 0 < j }
        requires j_le_record_limit { j ≤ record_limit }
        ensures { result ≡ is_met self j }
    {
        contains(self.marks[(j - 1) / 64], ((j - 1) % 64) as u32)
    }

    // The walk one record on, at record j. All four words are written, at constant indices: after a write at a
    // computed one the next step waits for the marks to come back from memory, and a sheet takes half as long again to
    // read.
    pub fn step_onto(self, j: usize) -> Walk
        requires j_nonzero { 0 < j }
        requires j_le_record_limit { j ≤ record_limit }
        requires steps_lt_record_limit { self.steps < record_limit }
        ensures { result ≡ onto self j }
    {
        let word = (j - 1) / 64;
        let bit = ((j - 1) % 64) as u32;
        let mut marks = self.marks;
        for k in 0..4 {
            marks[k] = choose(k == word, insert(marks[k], bit), marks[k]);
        }
        Walk {
            marks,
            at: j,
            steps: self.steps + 1,
        }
    }
}

// How many records are on the chain of a sheet that has `count` records, which is the number of steps (n, in
// docs/FORMAT.md), or the refusal of the first link that leads astray. The loop is a search and has no counter.
pub fn walk_chain(records: Records<'_>, count: usize) -> Result<u32, Refusal>
    requires whole { length records.bytes.now ≡ sheet_length (is_first records.bytes.now) count }
    requires count_le_record_limit { count ≤ record_limit }
    ensures { told result ≡ chain_read records.entry.bytes.now count }
{
    let mut walk = Walk::begin();
    'walk: loop {
        let next = records.follow(walk.at);
        if next == 0 {
            return Ok(walk.steps as u32);
        }
        if count < next {
            return Err(Refusal::at(Cause::RecordNumber, walk.at));
        }
        if walk.has_met(next) {
            return Err(Refusal::at(Cause::Loop, walk.at));
        }
        walk = walk.step_onto(next);
    }
}
