// A beam that sags: E, Mf and the shear factor over a span, and the verdict.
ghost use Rattle.std.specs.Prelude.{◌≡◌};
ghost use Rattle.rounding.specs.Range.{In, Value};
ghost use Rattle.sagrules.specs.Elasticity.{design_modulus};
ghost use Rattle.sagrules.specs.Sag.{SagBeamRanges, limit_moment, shear_factor};
ghost use Rattle.sagrules.specs.SagCheck.{sag_verdict};

use crate::elasticity::{elastic_duration, table_modulus};
use crate::sag::KnownSag;
use rounding::round_up;
use sagrules::answer::SagVerdict;
use sagrules::sag::SagBeam;

// A beam of a known grade, each figure in its range.
#[derive(Clone, Copy)]
pub struct KnownSagBeam {
    pub beam: SagBeam,
    pub ghost ranges: { SagBeamRanges beam },
}

impl KnownSagBeam {
    // E in MPa, rounded down.
    fn design_modulus(self) -> u64
        ensures { Value (In 5625 12000) (design_modulus self.beam) result }
    {
        let b = self.beam;
        table_modulus(b.grade) * elastic_duration(b.regime) * b.moisture / 10_000
    }

    // Mf in N·mm, rounded down.
    fn limit_moment(self, sag: KnownSag) -> u64
        ensures { Value (In 1944 900000000000) (limit_moment self.beam sag.sag) result }
    {
        let b = self.beam;
        let s = sag.sag;
        let height = b.height;
        4 * self.design_modulus() * b.width * (height * height * height) / (5 * s.span * s.ratio)
    }

    // The shear factor in millionths, its part rounded up.
    fn shear_factor(self, sag: KnownSag) -> u64
        ensures { Value (In 1000173 481000000) (shear_factor self.beam sag.sag) result }
    {
        let height = self.beam.height;
        let span = sag.sag.span;
        1_000_000 + round_up(19_200_000 * (height * height), span * span)
    }

    // Pass or fail, the utilisation, and the figures that it follows from. `as`: each but Mf is far below 2^32, and `TryFrom` would bring an error that cannot be. They become
    // floats: of a whole number whose range the compiler does not see, as of one from a table, it makes a float in a way that depends on the host's mode, unless it has 32
    // bits (decision 179). Mf is a quotient, of which it sees that 63 bits hold it.
    pub fn verdict(self, sag: KnownSag) -> SagVerdict
        ensures { result ≡ sag_verdict self.beam sag.sag }
    {
        let b = self.beam;
        let limit_moment = self.limit_moment(sag);
        let shear_factor = self.shear_factor(sag);
        let utilisation = round_up(sag.sag.moment * shear_factor, limit_moment).min(9_999_999);
        SagVerdict {
            passes: utilisation <= 1_000_000,
            utilisation: utilisation as u32,
            modulus: table_modulus(b.grade) as u32,
            elastic_duration: elastic_duration(b.regime) as u32,
            moisture: b.moisture as u32,
            design_modulus: self.design_modulus() as u32,
            limit_moment,
            shear_factor: shear_factor as u32,
        }
    }
}
