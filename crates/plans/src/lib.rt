// The mathematics of plans, with no code but a type: which plans are feasible and how many switches they make, the
// plan that is handed out and the proof that no plan has fewer, and what the chart means. specs/ has the definitions,
// proofs/ the laws. A step is the struct below.
#![tactic(auto)]

// A step: the units that must be on, those that may be on, and the least and greatest number on.
#[derive(Clone, Copy)]
pub struct Limits {
    pub lower: u64,
    pub upper: u64,
    pub least: u64,
    pub greatest: u64,
}

impl Limits {
    // The most steps.
    pub const STEPS: usize = 256;
    // The step with no number and no unit, which fills places that no step was put into yet.
    pub const NONE: Limits = Limits {
        lower: 0,
        upper: 0,
        least: 0,
        greatest: 0,
    };
}
