// The sag check: the beam that a row describes, and its sag.
#![tactic(auto)]

pub mod beam;
pub mod check;
