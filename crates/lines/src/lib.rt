// What the program prints of packed rows: definitions in specs/, their laws in proofs/. The code is in `text` and `report`.
#![tactic(auto)]

pub mod line;
pub mod text;
