// A line of text, put together field after field.
#![tactic(auto)]

pub mod text;
