// Slenderness, the resistances of a member, and checks 8 to 11, each of what it needs. Checks 5 to 7 are a force against a resistance or a capacity of the joint, in `rowcheck`.
// The ranges of single numbers, NR, a force and a moment, stay clauses (`stability`). `buckling_check` takes any number for a check, as it did.
ghost use Rattle.std.specs.Prelude.{◌≡◌, cond, ◌||◌, None, Some};
ghost use Rattle.rounding.specs.Range.{Value};
ghost use Rattle.rounding.specs.Utilisation.{utilisation};
ghost use Rattle.sp64.specs.Buckling.{buckling_phi, buckling_capacity, euler_capacity};
ghost use Rattle.sp64.specs.Capacity.{NR, MR, shear_capacity};
ghost use Rattle.sp64.specs.Combined.{compression_bending_utilisation, tension_bending_utilisation};
ghost use Rattle.sp64.specs.Ranges.{InAxialStrength, InForce, InLimit, InMR, InMoment, InNR, least_strength, greatest_strength};
ghost use Rattle.sp64.specs.Slenderness.{slenderness_holds};
ghost use Rattle.sp64.specs.Strength.{design_strength};
ghost use Rattle.sp64.specs.Tables.{slenderness_limit};
ghost use Rattle.sp64.specs.declared.tables.Stress.TheVariants.{Shear};
ghost use Rattle.member.specs.Checks.{without_check3};
ghost use Rattle.member.specs.declared.check.Across.TheVariants.{Height, Width};

use governing::utilisation::{against, used_at};
use member::check::{Across, StrengthCheck};
use member::verdict::Governing;
use section::capacity::CrossSection;
use sp64::tables::Stress;
use stability::buckling::buckling_capacity;
use stability::combined::Resistances;
use stability::strut::KnownStrut;
use strength::design::{KnownMaterial, design_strength};
use strength::tables::slenderness_limit;

// The first of checks 2 and 3 that fails, of the struts across the height and across the width; row 4 of Table 16 omits check 3.
pub fn first_too_slender(table16: u64, height: KnownStrut, width: KnownStrut) -> Option<Across>
    requires { InLimit (slenderness_limit table16) }
    ensures { result ≡ cond (slenderness_holds (slenderness_limit table16) height.strut) (cond (without_check3 table16 || slenderness_holds (slenderness_limit table16) width.strut) None (Some Width)) (Some Height) }
{
    let limit = slenderness_limit(table16);
    if !height.slenderness_holds(limit) {
        return Some(Across::Height);
    }
    if (table16 == 4) | width.slenderness_holds(limit) {
        None
    } else {
        Some(Across::Width)
    }
}

// What a member is made of: its cross-section and its material.
#[derive(Clone, Copy)]
pub struct Timber {
    pub section: CrossSection,
    pub material: KnownMaterial,
}

impl Timber {
    // NR with the strength of a stress along the grain: all of that stress's range is axial.
    pub fn axial_resistance(self, stress: Stress) -> u64
        requires { InAxialStrength (least_strength stress) × InAxialStrength (greatest_strength stress) }
        ensures { Value InNR (NR stress self.section.width self.section.height self.material.material) result }
    {
        let r = design_strength(stress, self.material.material);
        self.section.axial_capacity(r.strength)
    }

    // MR.
    pub fn moment_resistance(self) -> u64
        ensures { Value InMR (MR self.section.width self.section.height self.material.material) result }
    {
        let r = design_strength(Stress::Bending, self.material.material);
        self.section.bending_capacity(r.strength)
    }

    // NR with the strength of a stress along the grain, and MR.
    pub fn resistances(self, stress: Stress) -> Resistances
        requires { InAxialStrength (least_strength stress) × InAxialStrength (greatest_strength stress) }
        ensures axial { result.axial ≡ NR stress self.section.width self.section.height self.material.material }
        ensures bending { result.bending ≡ MR self.section.width self.section.height self.material.material }
    {
        Resistances {
            axial: self.axial_resistance(stress),
            bending: self.moment_resistance(),
        }
    }

    // Check 8.
    pub fn shear_check(self, q: u64) -> Governing
        ensures { result ≡ record { check = 8; utilisation = utilisation q (shear_capacity self.section.width self.section.height (design_strength Shear self.material.material)) } }
    {
        let r = design_strength(Stress::Shear, self.material.material);
        against(
            StrengthCheck::Shear.number(),
            q,
            self.section.shear_capacity(r.strength),
        )
    }
}

// Checks 9 and 10, with nr in compression.
pub fn buckling_check(check: u32, n: u64, nr: u64, strut: KnownStrut) -> Governing
    requires { InNR nr }
    ensures { result ≡ record { check = check; utilisation = utilisation n (buckling_capacity nr (buckling_phi strut.strut)) } }
{
    against(check, n, buckling_capacity(nr, strut.buckling_phi()))
}

// Check 11 of kind 4, with NR in compression and the strut across the height.
pub fn compression_bending_check(
    n: u64,
    m: u64,
    resistances: Resistances,
    height: KnownStrut,
) -> Governing
    requires { InForce n × InMoment m }
    ensures { result ≡ record { check = 11; utilisation = compression_bending_utilisation n m resistances.axial (euler_capacity resistances.axial height.strut) resistances.bending } }
{
    let c = height.euler_capacity(resistances.axial);
    used_at(
        StrengthCheck::CompressionBending.number(),
        resistances.compression_bending(n, m, c),
    )
}

// Check 11 of kind 5, with NR in tension: a function beside that of kind 4, which takes a strut and asks for the ranges of n and m.
pub fn tension_bending_check(n: u64, m: u64, resistances: Resistances) -> Governing
    ensures { result ≡ record { check = 11; utilisation = tension_bending_utilisation n m resistances.axial resistances.bending } }
{
    used_at(
        StrengthCheck::TensionBending.number(),
        resistances.tension_bending(n, m),
    )
}
