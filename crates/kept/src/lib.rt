// The operations of a kept schedule.
#![tactic(auto)]

pub mod schedule;
