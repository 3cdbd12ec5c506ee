// The figures of a sag: E, Mf, the shear factor, the utilisation.
#![tactic(auto)]

pub mod beam;
mod elasticity;
pub mod sag;
