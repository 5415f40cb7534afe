// The plan and the chart of any bytes: the refusals of each in their order, and then what the crates below make of the
// sheet. Nothing here is an open entry of the library: `warm` has the entries.
#![tactic(auto)]

pub mod charting;
pub mod plan;
