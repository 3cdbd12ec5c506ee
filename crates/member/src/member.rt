// The member that a row describes.
use crate::kind::Kind;
use sp64::joint::Joint;
use sp64::strength::Material;

// The cells of a row by name. A field that the kind does not fill is 0. Width, height and effective lengths have 16 bits, since none is above 20,000 in an accepted row
// (proofs/Lengths.antt). Today fields lie in memory as they stand here, so the small ones stand together.
#[derive(Clone, Copy)]
pub struct Member {
    pub kind: Kind,
    // Whether cells 14 to 22 are filled. No Option: like every other field that a row leaves blank, those of the joint are 0, and the definitions name them so.
    pub jointed: bool,
    // b and h
    pub width: u16,
    pub height: u16,
    // the effective lengths Lh and Lb
    pub lh: u16,
    pub lb: u16,
    // cells 2 to 5
    pub material: Material,
    // Cell 3 itself: the material has t alone, from which the regime does not follow.
    pub regime: u64,
    // N, M and Q
    pub force: u64,
    pub moment: u64,
    pub shear: u64,
    // the row of Table 16: a number, as that table is a match on one (decision 17)
    pub table16: u64,
    pub joint: Joint,
}

// The size of a member in bytes, which the order of its fields decides.
const _: () = prove!(size_of::<Member>() == 160);
