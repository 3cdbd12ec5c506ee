// What a worksheet hands over, is told and gets back: definitions in specs/, their meaning in proofs/. The code is in `reading`, `answer` and `hosting`.
#![tactic(auto)]

pub mod answer;
pub mod host_cell;
