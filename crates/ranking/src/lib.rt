// The ranking of verdicts.
#![tactic(auto)]

pub mod rank;
