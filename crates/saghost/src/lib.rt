// The sag check over lent bytes.
#![tactic(auto)]

pub mod host;
mod host_answer;
mod host_cells;
