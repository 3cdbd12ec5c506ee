// The tables, and the design strengths that follow from them.
#![tactic(auto)]

pub mod design;
pub mod tables;
