// Benches with chambers, with no code: what a step asks of each chamber, and the plan of all chambers together
// (specs/), and why it has the fewest switches and its chart is exact (proofs/).
#![tactic(auto)]
