// Prints the plan of the sheet that comes on standard input, or the refusal that it gets.
#![tactic(auto)]

use listing::input::print_listing;
use listing::{LONGEST, list_plan};
use std::io;

fn main(rt: HostRuntime) -> io::Result<()> {
    print_listing(&mut rt.stdin(), &rt, [0; LONGEST], list_plan)
}
