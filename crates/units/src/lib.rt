// Sets of units: a set is a u64 in which unit u has weight 2^u.
//
// Each function is a few machine operations and ensures that its result is the set, size or test that specs/Sets.antt
// defines, or, for the test of a step, specs/Limits.antt. Those that take a unit require that it is below 64. They
// serve the crates above; none is an open entry of the library. A set is a plain word, as callers in C lend and get
// it, and a unit a plain number, which is what shifts take: types of their own would be taken apart wherever they are
// used.
#![tactic(auto)]

ghost use Rattle.std.specs.Prelude.{◌≡◌, cond, ℕ, ◌-◌, ◌^◌, ◌<◌, ◌≤◌, min, max};
ghost use Rattle.units.specs.Sets.{union, intersection, difference, is_subset, meets, contains, insert, remove, size, has_unit_from, Lowest, Highest};
ghost use Rattle.units.specs.Limits.{feasible_sizes};

pub use members::Units;

mod members;

// All units that a set can have.
pub const ALL: u64 = u64::MAX;

// The units of either set.
#[tactic(auto, unfolding(crate::specs::Sets::union))]
pub fn union(a: u64, b: u64) -> u64
    ensures { result ≡ union a b }
{
    a | b
}

// The units of both sets.
#[tactic(auto, unfolding(crate::specs::Sets::intersection))]
pub fn intersection(a: u64, b: u64) -> u64
    ensures { result ≡ intersection a b }
{
    a & b
}

// The units of a that are not in b.
pub fn difference(a: u64, b: u64) -> u64
    ensures { result ≡ difference a b }
{
    a & !b
}

// Whether each unit of a is in b.
#[tactic(auto, unfolding(crate::specs::Sets::is_subset, crate::specs::Sets::intersection))]
pub fn is_subset(a: u64, b: u64) -> bool
    ensures { result ≡ is_subset a b }
{
    a & b == a
}

// Whether two sets have a common unit.
#[tactic(auto, unfolding(crate::specs::Sets::meets, crate::specs::Sets::intersection))]
pub fn meets(a: u64, b: u64) -> bool
    ensures { result ≡ meets a b }
{
    a & b != 0
}

// One of two values: in a loop over rows, where it stands, a branch in its place is slower.
pub fn choose<T: Copy>(first: bool, a: T, b: T) -> T
    ensures { result ≡ cond first a b }
{
    if first { a } else { b }
}

// Whether unit u is in s.
#[tactic(auto, using(crate::proofs::Words::one_shifted, crate::proofs::Words::and_single), unfolding(crate::specs::Sets::intersection))]
pub fn contains(s: u64, u: u32) -> bool
    requires { u < 64 }
    ensures { result ≡ contains s u }
{
    s & (1u64 << u) != 0
}

// s with unit u.
#[tactic(auto, using(crate::proofs::Words::one_shifted), unfolding(crate::specs::Sets::insert, crate::specs::Sets::union))]
pub fn insert(s: u64, u: u32) -> u64
    requires { u < 64 }
    ensures { result ≡ insert s u }
{
    s | (1u64 << u)
}

// s without unit u.
pub fn remove(s: u64, u: u32) -> u64
    requires { u < 64 }
    ensures { result ≡ remove s u }
{
    s & !(1u64 << u)
}

// How many units are in s.
#[tactic(auto, unfolding(crate::specs::Sets::size))]
pub fn size(s: u64) -> u32
    ensures { result ≡ size s }
{
    s.count_ones()
}

// Whether s has a unit from d up.
#[tactic(auto, using(crate::proofs::Words::shifted_out), unfolding(crate::specs::Sets::has_unit_from))]
pub fn has_unit_from(s: u64, d: u32) -> bool
    requires { d ≤ 64 }
    ensures { result ≡ has_unit_from s d }
{
    if d == 64 {
        return false;
    }
    s >> d != 0
}

// All units below d.
pub fn units_below(d: u32) -> u64
    requires { d ≤ 64 }
    ensures { result ≡ 2 ^ d - 1 }
{
    if d < 64 {
        return insert(0, d) - 1;
    }
    ALL
}

// The least and the greatest size of a feasible set.
#[derive(Clone, Copy, Debug, PartialEq, Eq)]
pub struct Sizes {
    pub few: u32,
    pub many: u32,
}

// The sizes of the sets that include lower, lie within upper and have a size from least to greatest, if there is one.
pub fn feasible_sizes(lower: u64, upper: u64, least: u8, greatest: u8) -> Option<Sizes>
    ensures { result ≡ feasible_sizes lower upper least greatest }
{
    if !is_subset(lower, upper) {
        return None;
    }
    let few = (least as u32).max(size(lower));
    let many = (greatest as u32).min(size(upper));
    if many < few {
        return None;
    }
    Some(Sizes { few, many })
}

// The lowest unit of s, which has one.
pub fn lowest(s: u64) -> u32
    requires { 0 < s }
    ensures { Lowest s result }
{
    s.trailing_zeros()
}

// s without its lowest unit, where it has one.
#[tactic(auto, using(crate::proofs::Words::and_one_less), unfolding(crate::specs::Sets::intersection))]
pub fn without_lowest(s: u64) -> u64
    requires { 0 < s }
    ensures { (u : ℕ) → Lowest s u → result ≡ remove s u }
{
    s & (s - 1)
}

// The highest unit of s, which has one.
pub fn highest(s: u64) -> u32
    requires { 0 < s }
    ensures { Highest s result }
{
    63 - s.leading_zeros()
}
