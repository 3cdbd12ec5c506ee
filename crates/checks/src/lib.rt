// Slenderness, the resistances of a member, and checks 8 to 11.
#![tactic(auto)]

pub mod checks;
