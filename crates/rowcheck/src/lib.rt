// The row check: acceptance, then judgement by the checks of the kind.
#![tactic(auto)]

pub mod check;
mod judge;
