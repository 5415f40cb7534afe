// The planner on decoded steps: which units are on in each step so that as few as possible are switched on. Its specs/
// have the definitions that the functions are proved to equal. Nothing here is an open entry of the library.
#![tactic(auto)]

pub mod pick;
pub mod plan;
pub mod scan;
pub mod stretch;
