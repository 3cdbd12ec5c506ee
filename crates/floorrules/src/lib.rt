// The floor-beam sheet: loads and span, the row made of them, what is answered. Definitions in specs/, theorems in proofs/. The code is in `floorloads`, `floorbeam` and `floorhost`.
#![tactic(auto)]

pub mod answer;
pub mod beam;
