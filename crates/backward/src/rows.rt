// The rows of the backward tables, turned back over a step.
ghost use Rattle.std.specs.Prelude.{◌≡◌, ℕ, ◌<◌, cond};
ghost use Rattle.units.specs.Sets.{bit, contains, intersection};
ghost use Rattle.tables.specs.Places.{rows_of};
ghost use Rattle.tables.specs.Tables.{even_row, gain_row};

use tables::Table;
use units::{ALL, Units, choose, contains, intersection, union};

// What the rows of a step have in common, going backward: the units with which there is one switch less before the
// step, those without which there are no more, and those held, on, new and free after it.
// With the step in place of its four sets the loop of `turn` branches on a set, and takes up to 40 % longer.
#[derive(Clone, Copy)]
pub struct Back {
    pub saves: u64,
    pub dispensable: u64,
    pub held: u64,
    pub on: u64,
    pub new: u64,
    pub free: u64,
}

impl Back {
    // What stays of the row of unit b: the free units, where b is still held.
    fn stays(self, b: u32, row: u64) -> u64
        requires { b < 64 }
        ensures { result ≡ cond (contains self.held b) (intersection row self.free) 0 }
    {
        choose(contains(self.held, b), intersection(row, self.free), 0)
    }

    // The even row of unit b before the step, from its row after.
    #[tactic(auto, unfolding(tables::specs::Tables::even_row))]
    fn even_row(self, b: u32, row: u64) -> u64
        requires { b < 64 }
        ensures { result ≡ even_row self.saves self.dispensable self.held self.free b row }
    {
        let dispensable = choose(contains(self.dispensable, b), ALL, 0);
        union(self.saves, union(dispensable, self.stays(b, row)))
    }

    // The gain row of unit b before the step, from its row after.
    #[tactic(auto, unfolding(tables::specs::Tables::gain_row))]
    fn gain_row(self, b: u32, row: u64) -> u64
        requires { b < 64 }
        ensures { result ≡ gain_row self.saves self.dispensable self.held self.free self.on self.new b row }
    {
        let leaves = choose(contains(self.on, b), 0, self.saves);
        let dispensable = choose(contains(self.dispensable, b), self.new, 0);
        union(leaves, union(dispensable, self.stays(b, row)))
    }

    // Turns the rows of the units of a set back over the step.
    pub fn turn(self, even: &mut Table, gain: &mut Table, set: u64)
        ensures even_turned { (b : ℕ) → bit set b ≡ 1
            → rows_of even.new b
            ≡ even_row self.saves self.dispensable self.held self.free b (rows_of even.old b) }
        ensures gain_turned { (b : ℕ) → bit set b ≡ 1
            → rows_of gain.new b
            ≡ gain_row self.saves self.dispensable self.held self.free self.on self.new b (rows_of gain.old b) }
    {
        for b in Units::of(set) {
            let u = b as usize;
            even[u] = self.even_row(b, even[u]);
            gain[u] = self.gain_row(b, gain[u]);
        }
    }
}
