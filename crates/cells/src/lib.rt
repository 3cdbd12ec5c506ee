// Cells and rows of whole numbers, and the refusals of document 01.
#![tactic(auto)]

pub mod refusal;
pub mod row;
