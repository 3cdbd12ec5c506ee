// The rules of SP 64.13330 for LVL members and their dowel joints: definitions in specs/, rounded and unrounded, and their laws in proofs/. The code is in `strength`, `section`, `stability` and `dowels`.
#![tactic(auto)]

pub mod joint;
pub mod strength;
pub mod strut;
pub mod tables;
