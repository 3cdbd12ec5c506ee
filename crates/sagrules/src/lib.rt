// The sag of a simple beam, request 3: the design modulus of elasticity, the moment that sags to the limit, the shear factor, what is answered. Definitions in specs/, theorems in proofs/. The code is in `sagfigures`, `sagcheck` and `saghost`.
#![tactic(auto)]

pub mod answer;
pub mod sag;
