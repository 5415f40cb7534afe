// What is said of any bytes without planning: the list of steps with the numbers of the sheet, and the verdict on a
// plan made elsewhere, each with its refusals in their order. Nothing here is an open entry of the library: `warm` has
// the entries.
#![tactic(auto)]

pub mod steps;
pub mod verdict;
