// The units of a set, one by one: their rows joined, and those that pass a test.
ghost use Rattle.std.specs.Prelude.{◌≡◌, ℕ, ◌<◌, Bool, cond};
ghost use Rattle.units.specs.Sets.{union, intersection};
ghost use Rattle.tables.specs.Tables.{row_count, gathered, passing};

use units::{Units, choose, insert, intersection, union};

// The units that can be on in place of one that is held, from its three rows, with no switch to spare, or with one.
pub fn in_place(tight: bool, turns: u64, even: u64, gain: u64) -> u64
    ensures { result ≡ cond tight (union (intersection turns even) gain) (union turns even) }
{
    choose(
        tight,
        union(intersection(turns, even), gain),
        union(turns, even),
    )
}

// What is found of the units of a set: their rows joined, and those that pass a test.
#[derive(Drop)]
pub struct Found {
    pub joined: u64,
    pub passed: u64,
}

// Of the units of a set, the rows that `look` gives joined, and the units that pass its test.
pub fn find<F: Fn(u32) -> (u64, bool)>(set: u64, look: F) -> Found
    requires { (b : ℕ) → b < row_count → F.pre look b }
    ensures { (rows : ℕ → ℕ) (test : ℕ → Bool)
        → ((b : ℕ) (r : ℕ × Bool) → b < row_count → F.post look b r → r ≡ (rows b, test b))
        → (result.joined ≡ gathered row_count set rows) × (result.passed ≡ passing row_count set test) }
{
    let mut joined = 0;
    let mut passed = 0;
    for b in Units::of(set) {
        let (row, passes) = look(b);
        joined = union(joined, row);
        passed = choose(passes, insert(passed, b), passed);
    }
    Found { joined, passed }
}
