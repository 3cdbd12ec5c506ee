// Axial force with bending, check 11. The ranges of single numbers, a force, a moment, a capacity and a utilisation, stay clauses: as structs of one field they would
// put that field's name into each sum and each contract, and `Value` gives a number with its range (decision 19). Force and
// moment stay two of them: kind 4 asks for their ranges and kind 5 does not, and the sum takes another moment than M.
ghost use Rattle.rounding.specs.Range.{Value};
ghost use Rattle.rounding.specs.Utilisation.{InUtilisation};
ghost use Rattle.sp64.specs.Ranges.{InBucklingCapacity, InForce, InMR, InMoment, InNR};
ghost use Rattle.sp64.specs.Combined.{combined, compression_bending_utilisation, tension_bending_utilisation};

// The resistances of a member that is bent under an axial force: NR and MR, in their ranges.
#[derive(Clone, Copy)]
pub struct Resistances {
    pub axial: u64,
    pub bending: u64,
    pub ghost in_axial: { InNR axial },
    pub ghost in_bending: { InMR bending },
}

impl Resistances {
    // The utilisations of n against NR and of md against MR, added.
    fn combined_utilisation(self, n: u64, md: u64) -> u64
        ensures { Value InUtilisation (combined n self.axial md self.bending) result }
    {
        let sum = rounding::utilisation_of(n, self.axial)
            + rounding::utilisation_of(md, self.bending);
        sum.min(9_999_999)
    }

    // Kind 4, with c the capacity NR × φ'.
    pub fn compression_bending(self, n: u64, m: u64, c: u64) -> u64
        requires { InForce n × InMoment m × InBucklingCapacity c }
        ensures { Value InUtilisation (compression_bending_utilisation n m self.axial c self.bending) result }
    {
        let p = rounding::round_up(1_000_000 * n, c);
        if 1_000_000 <= p {
            return 9_999_999;
        }
        let md = rounding::round_up(1_000_000 * m, 1_000_000 - p);
        self.combined_utilisation(n, md)
    }

    // Kind 5, with NR of the tension strength: Md is M. It has a definition of its own, and so a function, beside the sum that kind 4 takes with another moment.
    pub fn tension_bending(self, n: u64, m: u64) -> u64
        ensures { Value InUtilisation (tension_bending_utilisation n m self.axial self.bending) result }
    {
        self.combined_utilisation(n, m)
    }
}
