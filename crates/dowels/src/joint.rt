// The dowel joint: layout, dowel count, joint length. The ranges of single numbers, a width, a force, a term, T and a count, stay clauses: as structs of one field they would
// put that field's name into each product and each contract, and `Value` gives a number with its range (decision 19). The width is no second field of `KnownJoint`:
// layout and joint length, which ask for none, would then ask for it.
ghost use Rattle.std.specs.Prelude.{◌*◌, ◌≡◌};
ghost use Rattle.rounding.specs.Range.{Value};
ghost use Rattle.sp64.specs.Ranges.{InConditionRoot, InCount, InCrushing, InCrushingCapacity, InDowelBending, InDowelBendingCapacity, InDowelCapacity, InForce, InHeight, InWidth};
ghost use Rattle.sp64.specs.Joint.{JointRanges, layout_holds, dowel_bending, condition_root, crushing_capacity, dowel_bending_capacity, dowel_capacity, dowel_count, joint_count, joint_length_holds};

use sp64::joint::Joint;
use strength::design::KnownMaterial;

fn dowel_count(n: u64, t: u64) -> u64
    requires { InForce n × InDowelCapacity t }
    ensures { Value InCount (dowel_count n t) result }
{
    rounding::round_up(1000 * n, 2 * t)
}

// s, the whole root of the condition factors.
#[tactic(auto, using(sp64::proofs::RootMeaning::condition_root_in))]
fn condition_root(m: KnownMaterial) -> u64
    ensures { Value InConditionRoot (condition_root m.material) result }
{
    rounding::whole_root(m.undivided_product(100_000))
}

// What a crushing term allows, in mN.
#[tactic(auto, using(sp64::proofs::JointLaws::crushing_capacity_in))]
fn crushing_capacity(term: u64, m: KnownMaterial) -> u64
    requires { InCrushing term }
    ensures { Value InCrushingCapacity (crushing_capacity term m.material) result }
{
    m.undivided_product(term) / 1_000_000
}

// A joint in its ranges; a struct of its own, as `KnownMaterial` (`strength`) says.
#[derive(Clone, Copy)]
pub struct KnownJoint {
    pub joint: Joint,
    pub ghost ranges: { JointRanges joint },
}

impl KnownJoint {
    // Check 1.
    pub fn layout_holds(self, h: u16) -> bool
        requires { InHeight h }
        ensures { result ≡ layout_holds h self.joint }
    {
        let j = self.joint;
        (7 * j.across + 5) * j.diameter <= 2 * u64::from(h)
    }

    // The term of the dowel's bending, in hundredths of N.
    fn dowel_bending(self) -> u64
        ensures { Value InDowelBending (dowel_bending self.joint) result }
    {
        let j = self.joint;
        let d2 = j.diameter * j.diameter;
        let a2 = j.side * j.side;
        (j.kb * d2 + j.ke * a2).min(j.km * d2)
    }

    // What bending of the dowel allows, in mN.
    fn dowel_bending_capacity(self, m: KnownMaterial) -> u64
        ensures { Value InDowelBendingCapacity (dowel_bending_capacity (dowel_bending self.joint) m.material) result }
    {
        self.dowel_bending() * condition_root(m) / 100_000
    }

    // T, in mN.
    #[tactic(auto, using(sp64::proofs::JointLaws::core_crushing_in, sp64::proofs::JointLaws::side_crushing_in, sp64::proofs::JointLaws::capacity_in))]
    fn dowel_capacity(self, b: u16, m: KnownMaterial) -> u64
        requires { InWidth b }
        ensures { Value InDowelCapacity (dowel_capacity b self.joint m.material) result }
    {
        let j = self.joint;
        let core = crushing_capacity(j.kc * u64::from(b) * j.diameter, m);
        let side = crushing_capacity(j.ka * j.side * j.diameter, m);
        core.min(side.min(self.dowel_bending_capacity(m)))
    }

    // The dowels that the axial force n needs.
    pub fn count(self, n: u64, b: u16, m: KnownMaterial) -> u64
        requires { InForce n × InWidth b }
        ensures { Value InCount (joint_count n b self.joint m.material) result }
    {
        dowel_count(n, self.dowel_capacity(b, m))
    }

    // Check 4.
    pub fn length_holds(self, count: u64) -> bool
        requires { InCount count }
        ensures { result ≡ joint_length_holds self.joint count }
    {
        let j = self.joint;
        7 * j.diameter * (rounding::round_up(count, j.across) + 1) <= j.available
    }
}
