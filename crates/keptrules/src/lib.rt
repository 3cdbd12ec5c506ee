// A kept schedule, request 6: what is held, what each operation gives and leaves, and what lists of calls do. Definitions in specs/, theorems in proofs/. The code is in `kept`.
#![tactic(auto)]

pub mod answer;
pub mod call;
pub mod schedule;
