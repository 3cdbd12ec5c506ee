// A check with its utilisation, the one that governs, and the verdicts that follow.
#![tactic(auto)]

pub mod utilisation;
pub mod verdicts;
