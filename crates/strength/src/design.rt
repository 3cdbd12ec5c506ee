// The design strength R of a stress, in kPa, with the remainder of its division.
ghost use Rattle.std.specs.Prelude.{◌+◌, ◌*◌, ◌<◌, ◌≡◌};
ghost use Rattle.rounding.specs.Range.{In, Value};
ghost use Rattle.sp64.specs.Ranges.{InStrength, InUndivided};
ghost use Rattle.sp64.specs.Strength.{MaterialRanges, material_of, undivided, design_strength, strength_remainder};
ghost use Rattle.sp64.specs.Tables.{table_strength};

use crate::tables::{duration_factor, moisture_factor, table_strength};
use sp64::strength::{DesignStrength, Material};
use sp64::tables::Stress;

// The material that cells 2 to 5 give, by their codes: numbers as in `tables`, of which an unknown regime gives 0 for t. No `From`: four numbers in a tuple would have
// no names. Written out where it is called, as acceptance is (decision 170).
#[inline(always)]
pub fn material_of(grade: u64, regime: u64, percent: u64, office: u64) -> Material
    ensures { result ≡ material_of grade regime percent office }
{
    Material {
        grade,
        duration: duration_factor(regime),
        moisture: moisture_factor(percent),
        office,
    }
}

// A material of known codes, each figure in its range. A struct for each type whose ranges are known, and no `Known<T>` for all: methods can stand only in the crate of
// their type (decision 165).
#[derive(Clone, Copy)]
pub struct KnownMaterial {
    pub material: Material,
    pub ghost ranges: { MaterialRanges material },
}

impl KnownMaterial {
    // value × t × w × o, where the value is a strength of Table 7, a crushing term of a dowel, or 100,000.
    pub fn undivided_product(self, value: u64) -> u64
        requires { InUndivided value }
        ensures { Value (In 7751250000 660000000000000) (undivided value self.material) result }
    {
        let m = self.material;
        value * m.duration * m.moisture * m.office
    }
}

// R, in kPa, and what rounding it down drops. Of a bare material, as `material_of` gives it: a caller with a known one
// hands out its field, and `strengths` has no other.
#[tactic(auto, using(sp64::proofs::StrengthLaws::strength_in_lem))]
pub fn design_strength(stress: Stress, m: Material) -> DesignStrength
    requires { MaterialRanges m }
    ensures strength { Value (InStrength stress) (design_strength stress m) result.strength }
    ensures remainder { (result.remainder ≡ strength_remainder stress m) × (result.remainder < 10000000) }
    ensures product { result.strength * 10000000 + result.remainder ≡ undivided (table_strength stress m.grade) m }
{
    let known = KnownMaterial { material: m };
    let product = known.undivided_product(table_strength(stress, m.grade));
    DesignStrength {
        strength: product / 10_000_000,
        remainder: product % 10_000_000,
    }
}
