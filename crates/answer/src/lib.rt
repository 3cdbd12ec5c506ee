// Whole numbers as floats in lent bytes, any number of them; the answer of a check.
#![tactic(auto)]

pub mod answer;
pub mod floats;
