// The answers of the floor-beam check.
ghost use Rattle.std.specs.Prelude.{◌≡◌};
ghost use Rattle.floorrules.specs.declared.answer.BeamRefusal.TheVariants.{Row};

use cells::refusal::Refusal;
use member::verdict::Verdict;

// Why a floor beam is refused.
#[derive(Clone, Copy, Debug, PartialEq, Eq)]
pub enum BeamRefusal {
    // 8: a load, both together or the span is outside its range.
    LoadOrSpan,
    // The refusal of the row that is made of the beam.
    Row(Refusal),
}

impl From<Refusal> for BeamRefusal {
    ghost from_gives = { λ refusal e. e ≡ Row refusal };

    fn from(refusal: Refusal) -> BeamRefusal {
        BeamRefusal::Row(refusal)
    }
}

// The verdict on the row, and what was made of the loads: the regime's code, which the row and the answer have as a number, M in N·mm and Q in N.
#[derive(Clone, Copy)]
pub struct BeamVerdict {
    pub verdict: Verdict,
    pub regime: u32,
    pub moment: u64,
    pub shear: u64,
}
