// Prints how few and how many units may be on in each step of the sheet that comes on standard input, or the refusal
// that it gets.
#![tactic(auto)]

use listing::input::print_listing;
use listing::{LONGEST_SIZES, list_sizes};
use std::io;

fn main(rt: HostRuntime) -> io::Result<()> {
    print_listing(&mut rt.stdin(), &rt, [0; LONGEST_SIZES], list_sizes)
}
