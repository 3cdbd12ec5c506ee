// What is made of a floor beam's loads and span.
#![tactic(auto)]

pub mod loads;
