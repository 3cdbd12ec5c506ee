// The answers of the sag check.
ghost use Rattle.std.specs.Prelude.{◌≡◌};
ghost use Rattle.sagrules.specs.SagCheck.{sag_refusal_number, sag_refusal_cell, sag_refusal_code};
ghost use Rattle.sagrules.specs.declared.answer.SagRefusal.TheVariants.{Row};

use cells::refusal::Refusal;

// Why a sag check is refused.
#[derive(Clone, Copy, Debug, PartialEq, Eq)]
pub enum SagRefusal {
    // The row's own refusal.
    Row(Refusal),
    // 9: the row is not of kind 2.
    NotBending,
    // 10: the span, the moment or n is missing or outside its range, or the host's sag has another length.
    SagCell,
}

impl SagRefusal {
    // The number of a refusal.
    pub fn number(self) -> u32
        ensures { result ≡ sag_refusal_number self }
    {
        match self {
            SagRefusal::Row(refusal) => refusal.number(),
            SagRefusal::NotBending => 9,
            SagRefusal::SagCell => 10,
        }
    }

    // The cell that a refusal names, 0 where it is tied to none.
    pub fn cell(self) -> u32
        ensures { result ≡ sag_refusal_cell self }
    {
        match self {
            SagRefusal::Row(refusal) => refusal.cell(),
            SagRefusal::NotBending => 1,
            SagRefusal::SagCell => 0,
        }
    }

    // What the host is told of a refusal: 1000 × number + cell.
    pub fn code(self) -> u64
        ensures { result ≡ sag_refusal_code self }
    {
        1000 * u64::from(self.number()) + u64::from(self.cell())
    }
}

impl From<Refusal> for SagRefusal {
    ghost from_gives = { λ row e. e ≡ Row row };

    fn from(row: Refusal) -> SagRefusal {
        SagRefusal::Row(row)
    }
}

// Pass or fail with the utilisation in millionths, and the figures that it follows from: the modulus of Table В.2а and E in MPa, e and w in hundredths, Mf in N·mm, the shear
// factor in millionths.
#[derive(Clone, Copy)]
pub struct SagVerdict {
    pub passes: bool,
    pub utilisation: u32,
    pub modulus: u32,
    pub elastic_duration: u32,
    pub moisture: u32,
    pub design_modulus: u32,
    pub limit_moment: u64,
    pub shear_factor: u32,
}
