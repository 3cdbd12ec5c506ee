// Which rows are accepted, and the members that they describe.
#![tactic(auto)]

pub mod accept;
mod naming;
mod searches;
