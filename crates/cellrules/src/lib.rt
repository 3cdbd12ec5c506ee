// What a cell may break: the rules of filling, codes and ranges, and the kind in cell 1.
#![tactic(auto)]

pub mod kind;
mod ranges;
pub mod rules;
