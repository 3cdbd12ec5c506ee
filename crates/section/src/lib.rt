// The capacities of a cross-section.
#![tactic(auto)]

pub mod capacity;
