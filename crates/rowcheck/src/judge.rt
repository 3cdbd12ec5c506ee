// The verdict on a member.
ghost use Rattle.std.specs.Prelude.{◌≡◌, true, false, not, ◌||◌, [], ◌∷◌};
ghost use Rattle.rounding.specs.Utilisation.{utilisation};
ghost use Rattle.sp64.specs.Buckling.{buckling_phi, buckling_capacity};
ghost use Rattle.sp64.specs.Joint.{Layout, layout_holds};
ghost use Rattle.sp64.specs.Ranges.{InNR};
ghost use Rattle.member.specs.Cells.{required};
ghost use Rattle.member.specs.Checks.{check_number, strength_checks, yes_no_checks};
ghost use Rattle.member.specs.Member.{count_of, strut_of};
ghost use Rattle.member.specs.Ranges.{RangesOf};
ghost use Rattle.member.specs.Verdict.{by_strength, governing, judge_by, verdict};
ghost use Rattle.member.specs.declared.check.Check.TheVariants.{Strength as strength};
ghost use Rattle.member.specs.declared.check.StrengthCheck.TheVariants.{Buckling as buckling};
ghost use Rattle.member.specs.declared.check.YesNoCheck.TheVariants.{JointLength as joint_length};
ghost use Rattle.member.specs.declared.kind.Kind.TheVariants.{Tension};
ghost use Rattle.rowcheck.specs.FirstFailed.{first_failed};

use cellrules::rules::is_required;
use checks::checks::{
    Timber, buckling_check, compression_bending_check, first_too_slender, tension_bending_check,
};
use dowels::joint::KnownJoint;
use governing::utilisation::against;
use governing::verdicts::{by_strength, failed_on, greater};
use member::check::{Across, StrengthCheck, YesNoCheck};
use member::kind::Kind;
use member::member::Member;
use member::verdict::{Governing, Verdict};
use section::capacity::{CrossSection, LaidOutJoint};
use sp64::tables::Stress;
use stability::strut::{KnownStrut, strut};
use strength::design::{KnownMaterial, design_strength};

// The member of an accepted row: each cell that its kind fills is in its range. A ghost field of `Member` could not say it: that names the cells of every row.
#[derive(Clone, Copy)]
pub struct KnownMember {
    pub member: Member,
    pub ghost ranges: { RangesOf member.kind member },
}

impl KnownMember {
    // The member as a strut: Lh with h, and Lb with b.
    fn strut_across(self, across: Across) -> KnownStrut
        requires { required self.member.kind 11 ≡ true }
        ensures { result.strut ≡ strut_of self.member across }
    {
        let m = self.member;
        let strut = match across {
            Across::Height => strut(m.lh, m.height),
            Across::Width => strut(m.lb, m.width),
        };
        KnownStrut { strut }
    }

    // Check 1 holds, or there is no joint.
    fn is_laid_out(self) -> bool
        ensures { result ≡ (not self.member.jointed || layout_holds self.member.height self.member.joint) }
    {
        let m = self.member;
        !m.jointed || KnownJoint { joint: m.joint }.layout_holds(m.height)
    }

    // The first of layout and slenderness that fails. A kind has the checks of slenderness where it has the effective lengths, from cell 11 on.
    fn first_failed(self) -> Option<YesNoCheck>
        ensures { result ≡ first_failed self.member (yes_no_checks self.member.kind) }
    {
        let m = self.member;
        if !self.is_laid_out() {
            return Some(YesNoCheck::Layout);
        }
        if !is_required(m.kind, 11) {
            return None;
        }
        let height = self.strut_across(Across::Height);
        let across = first_too_slender(m.table16, height, self.strut_across(Across::Width))?;
        Some(YesNoCheck::Slenderness(across))
    }

    // Checks 9 and 10, with nr in compression. Its range stays a clause, as in `checks`: it is one number.
    fn buckling(self, across: Across, nr: u64) -> Governing
        requires lengths { required self.member.kind 11 ≡ true }
        requires resistance { InNR nr }
        ensures { result ≡ record { check = check_number (strength (buckling across)); utilisation = utilisation self.member.force (buckling_capacity nr (buckling_phi (strut_of self.member across))) } }
    {
        let check = StrengthCheck::Buckling(across);
        buckling_check(
            check.number(),
            self.member.force,
            nr,
            self.strut_across(across),
        )
    }

    // The strength check that governs a member without a joint. A match and no list of closures: the checks of a kind differ in what they need, and share NR and MR.
    fn governing_check(self) -> Governing
        requires { self.member.jointed ≡ false }
        ensures { result ≡ governing self.member (strength_checks self.member.kind) }
    {
        let m = self.member;
        let timber = Timber {
            section: CrossSection {
                width: m.width,
                height: m.height,
            },
            material: KnownMaterial {
                material: m.material,
            },
        };
        match m.kind {
            // check 5
            Kind::Tension => against(
                StrengthCheck::NetTension.number(),
                m.force,
                timber.axial_resistance(Stress::Tension),
            ),
            // checks 7 and 8
            Kind::Bending => greater(
                against(
                    StrengthCheck::Bending.number(),
                    m.moment,
                    timber.moment_resistance(),
                ),
                timber.shear_check(m.shear),
            ),
            // checks 9 and 10
            Kind::Compression => {
                let nr = timber.axial_resistance(Stress::Compression);
                let check_9 = self.buckling(Across::Height, nr);
                greater(check_9, self.buckling(Across::Width, nr))
            }
            // checks 8 to 11
            Kind::CompressionBending => {
                let resistances = timber.resistances(Stress::Compression);
                let height = self.strut_across(Across::Height);
                let check_9 = self.buckling(Across::Height, resistances.axial);
                let check_10 = self.buckling(Across::Width, resistances.axial);
                let check_11 = compression_bending_check(m.force, m.moment, resistances, height);
                let check_8 = timber.shear_check(m.shear);
                greater(check_8, greater(check_9, greater(check_10, check_11)))
            }
            // checks 8 and 11
            Kind::TensionBending => {
                let resistances = timber.resistances(Stress::Tension);
                let check_11 = tension_bending_check(m.force, m.moment, resistances);
                greater(timber.shear_check(m.shear), check_11)
            }
        }
    }

    // The verdict on a member with a joint whose layout holds: checks 4 to 6. `as`: by the range of a count nothing is lost.
    fn judge_joint(self) -> Verdict
        requires jointed { self.member.jointed ≡ true }
        requires layout { Layout self.member.height self.member.joint }
        ensures { result ≡ judge_by self.member (joint_length ∷ []) (by_strength (governing self.member (strength_checks Tension)) (count_of self.member)) }
    {
        let m = self.member;
        let joint = KnownJoint { joint: m.joint };
        let material = KnownMaterial {
            material: m.material,
        };
        let count = joint.count(m.force, m.width, material);
        if !joint.length_holds(count) {
            return failed_on(YesNoCheck::JointLength.number(), count as u32);
        }
        let laid_out = LaidOutJoint {
            height: m.height,
            joint: m.joint,
        };
        let r = design_strength(Stress::Tension, m.material);
        let net = against(
            StrengthCheck::NetTension.number(),
            m.force,
            laid_out.net_tension_capacity(m.width, r.strength),
        );
        let side = against(
            StrengthCheck::SidePieces.number(),
            m.force,
            laid_out.side_piece_capacity(r.strength),
        );
        by_strength(greater(net, side), count as u32)
    }

    // The verdict on a member: by the flag, as `Member` has no Option of a joint.
    pub fn judge(self) -> Verdict
        ensures { result ≡ verdict self.member }
    {
        if let Some(check) = self.first_failed() {
            return failed_on(check.number(), 0);
        }
        if self.member.jointed {
            self.judge_joint()
        } else {
            by_strength(self.governing_check(), 0)
        }
    }
}
