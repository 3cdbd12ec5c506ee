// The span, the moment and n of a sag check.
ghost use Rattle.std.specs.Prelude.{◌≡◌};
ghost use Rattle.cells.specs.Refusal.{map_given};
ghost use Rattle.sagrules.specs.Sag.{sag_in_range, SagRanges};
ghost use Rattle.sagrules.specs.SagCheck.{accept_sag, sag_answer_result};

use sagrules::answer::SagRefusal;
use sagrules::sag::Sag;

// Span, moment and n are within their ranges.
fn sag_in_range(s: Sag) -> bool
    ensures { result ≡ sag_in_range s }
{
    (500..=20_000).contains(&s.span)
        && (1..=10_000_000_000).contains(&s.moment)
        && (100..=500).contains(&s.ratio)
}

// A span, a moment and n within their ranges.
#[derive(Clone, Copy)]
pub struct KnownSag {
    pub sag: Sag,
    pub ghost in_range: { SagRanges sag },
}

// The three, refused where one is outside its range.
impl TryFrom<Sag> for KnownSag {
    type Error = SagRefusal;

    ghost try_from_gives = { λ sag result. map_given (λ known. known.sag) (sag_answer_result result) ≡ accept_sag sag };

    fn try_from(sag: Sag) -> Result<Self, SagRefusal> {
        if sag_in_range(sag) {
            Ok(KnownSag { sag })
        } else {
            Err(SagRefusal::SagCell)
        }
    }
}
