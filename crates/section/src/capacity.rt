// Capacities of a cross-section: NR and checks 5 to 8. The ranges of single numbers, a strength and a capacity, stay clauses: as structs of one field they would put
// that field's name into each product and each contract, and `Value` gives a number with its range (decision 19). The width is no field of `LaidOutJoint`: check 6,
// which asks for none, would then ask for it.
ghost use Rattle.rounding.specs.Range.{In, Value};
ghost use Rattle.sp64.specs.declared.tables.Stress.TheVariants.{Bending, Shear};
ghost use Rattle.sp64.specs.Ranges.{InAxialStrength, InHeight, InMR, InNR, InNetCapacity, InShearCapacity, InStrength, InWidth};
ghost use Rattle.sp64.specs.Joint.{JointRanges, Layout};
ghost use Rattle.sp64.specs.Capacity.{Section, axial_capacity, net_height, net_tension_capacity, side_piece_capacity, bending_capacity, shear_capacity};

use sp64::joint::Joint;

// width × height × r / 1000, in N, for a whole section, a net section or both side pieces.
fn area_capacity(width: u64, height: u64, r: u64) -> u64
    requires { In 20 600 width × In 30 2500 height × InAxialStrength r }
    ensures { Value InNetCapacity (axial_capacity width height r) result }
{
    width * height * r / 1000
}

// A cross-section: b and h, in their ranges.
#[derive(Clone, Copy)]
pub struct CrossSection {
    pub width: u16,
    pub height: u16,
    pub ghost ranges: { Section width height },
}

impl CrossSection {
    // NR; also check 5 without a joint.
    pub fn axial_capacity(self, r: u64) -> u64
        requires { InAxialStrength r }
        ensures { Value InNR (axial_capacity self.width self.height r) result }
    {
        area_capacity(u64::from(self.width), u64::from(self.height), r)
    }

    // MR, check 7, in N·mm.
    pub fn bending_capacity(self, r: u64) -> u64
        requires { InStrength Bending r }
        ensures { Value InMR (bending_capacity self.width self.height r) result }
    {
        let height = u64::from(self.height);
        u64::from(self.width) * (height * height) * r / 6000
    }

    // Check 8, in N.
    pub fn shear_capacity(self, r: u64) -> u64
        requires { InStrength Shear r }
        ensures { Value InShearCapacity (shear_capacity self.width self.height r) result }
    {
        2 * (u64::from(self.width) * u64::from(self.height)) * r / 3000
    }
}

// A joint whose layout holds in a height, each in its ranges. Not over `KnownJoint`: this crate does not stand on `dowels`.
#[derive(Clone, Copy)]
pub struct LaidOutJoint {
    pub height: u16,
    pub joint: Joint,
    pub ghost in_height: { InHeight height },
    pub ghost ranges: { JointRanges joint },
    pub ghost layout: { Layout height joint },
}

impl LaidOutJoint {
    // The height that the dowels leave.
    fn net_height(self) -> u64
        ensures { Value (In 30 2500) (net_height self.height self.joint) result }
    {
        u64::from(self.height) - self.joint.across * self.joint.diameter
    }

    // Check 5 with a joint, in a section of width b.
    pub fn net_tension_capacity(self, b: u16, r: u64) -> u64
        requires { InWidth b × InAxialStrength r }
        ensures { Value InNetCapacity (net_tension_capacity b self.height self.joint r) result }
    {
        area_capacity(u64::from(b), self.net_height(), r)
    }

    // Check 6.
    pub fn side_piece_capacity(self, r: u64) -> u64
        requires { InAxialStrength r }
        ensures { Value InNetCapacity (side_piece_capacity self.height self.joint r) result }
    {
        area_capacity(2 * self.joint.side, self.net_height(), r)
    }
}
