// What the programs that try the library share: numbers that are drawn, the bytes of a sheet, and the tally of trials.
#![tactic(auto)]

pub mod draws;
pub mod layout;
pub mod tally;
