// Buckling, checks 9 and 10, and the capacity in p of check 11. The ranges of single numbers, NR and a capacity, stay clauses: as structs of one field they would put
// that field's name into each product and each contract, and `Value` gives a number with its range (decision 19).
ghost use Rattle.rounding.specs.Range.{Value};
ghost use Rattle.sp64.specs.Ranges.{InBucklingCapacity, InNR, InPhi, InSlenderPhi};
ghost use Rattle.sp64.specs.Buckling.{slender_phi, buckling_phi, buckling_capacity, euler_capacity};

use crate::strut::KnownStrut;

// NR × φ, in N, for any φ.
pub fn buckling_capacity(nr: u64, phi: u64) -> u64
    requires { InNR nr × InSlenderPhi phi }
    ensures { Value InBucklingCapacity (buckling_capacity nr phi) result }
{
    nr * phi / 1_000_000
}

impl KnownStrut {
    // The second form of φ, in millionths.
    fn slender_phi(self) -> u64
        ensures { Value InSlenderPhi (slender_phi self.strut) result }
    {
        250_000_000 * self.side_squared() / self.length_squared()
    }

    // φ of checks 9 and 10, in millionths.
    #[tactic(auto, using(sp64::proofs::PhiLaws::stocky_off, sp64::proofs::PhiLaws::phi_in))]
    pub fn buckling_phi(self) -> u64
        ensures { Value InPhi (buckling_phi self.strut) result }
    {
        let l2 = self.length_squared();
        let s2 = self.side_squared();
        if 12 * l2 <= 4900 * s2 {
            1_000_000 - rounding::round_up(960 * l2, s2)
        } else {
            self.slender_phi()
        }
    }

    // NR × φ' of check 11, in N; beside `buckling_capacity`, so that φ of check 9 cannot be taken for φ' (decision 7).
    pub fn euler_capacity(self, nr: u64) -> u64
        requires { InNR nr }
        ensures { Value InBucklingCapacity (euler_capacity nr self.strut) result }
    {
        buckling_capacity(nr, self.slender_phi())
    }
}
