// The floor-beam check: loads and span to a row of kind 2, which the row check judges.
#![tactic(auto)]

pub mod check;
mod row;
