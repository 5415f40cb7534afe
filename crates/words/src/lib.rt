// What is done with the words of outputs, one word a step: they are cleared, copied, and cut down to some units.
// Nothing here is an open entry of the library. How many words is said beside the output: callers in C lend longer
// ones, and the contracts say of all places what they hold afterwards.
#![tactic(auto)]

ghost use Rattle.std.specs.Prelude.{◌≡◌, ◌≤◌, length, replicate, take};
ghost use Rattle.std.proofs.lemmas.List.Edits.{sets};
ghost use Rattle.chambers.specs.Parts.{cut};

use units::intersection;

// Sets the first n words to 0, and leaves the others as they were.
pub fn clear(out: &mut [u64], n: usize)
    requires { n ≤ length out.old }
    ensures { out.new ≡ sets out.old 0 (replicate n 0) }
{
    out[..n].fill(0);
}

// Copies the first n words. `copy_from_slice` of a number of words that is known only here would need memmove of the
// host, for which include/warm.h does not ask.
pub fn copy_words(from: &[u64], to: &mut [u64], n: usize)
    requires room_in_from { n ≤ length from.now }
    requires room_in_to { n ≤ length to.old }
    ensures { to.new ≡ sets to.old 0 (take n from.now) }
{
    for i in 0..n {
        to[i] = from[i];
    }
}

// Copies what the first n words have of some units.
pub fn cut_words(from: &[u64], units: u64, to: &mut [u64], n: usize)
    requires room_in_from { n ≤ length from.now }
    requires room_in_to { n ≤ length to.old }
    ensures { to.new ≡ sets to.old 0 (cut units (take n from.now)) }
{
    // of the places that a `zip` over both writes, a proof knows nothing after the loop
    for i in 0..n {
        to[i] = intersection(from[i], units);
    }
}
