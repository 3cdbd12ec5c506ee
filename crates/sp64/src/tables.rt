// The stresses that the tables have strengths for.

// The stresses of Table 7 that the checks use.
#[derive(Clone, Copy, Debug, PartialEq, Eq)]
pub enum Stress {
    Bending,
    Compression,
    Tension,
    Shear,
}
