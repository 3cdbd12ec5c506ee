// What the worksheet host's entries do: lent bytes in and out, a number back.
#![tactic(auto)]

pub mod check;
pub mod pack;
