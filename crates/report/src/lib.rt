// What the program prints of packed rows.
#![tactic(auto)]

pub mod line;
pub mod output;
