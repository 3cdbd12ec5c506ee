// The dowel joint of a row.

// Cells 14 to 22. Lengths in mm, coefficients of Table 18 in hundredths of N/mm².
#[derive(Clone, Copy)]
pub struct Joint {
    // a, the thickness of a side piece
    pub side: u64,
    // d
    pub diameter: u64,
    // r, dowels across the height
    pub across: u64,
    // the joint length available
    pub available: u64,
    // crushing of the core and of a side piece
    pub kc: u64,
    pub ka: u64,
    // bending of a dowel: by its diameter, by the side piece, and the most that is taken
    pub kb: u64,
    pub ke: u64,
    pub km: u64,
}
