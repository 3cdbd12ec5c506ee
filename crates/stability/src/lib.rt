// Slenderness, buckling, and axial force with bending.
#![tactic(auto)]

pub mod buckling;
pub mod combined;
pub mod slenderness;
pub mod strut;
