// The loads on a floor beam: their ranges, the regime, M and Q.
ghost use Rattle.std.specs.Prelude.{◌≡◌};
ghost use Rattle.cells.specs.Refusal.{map_given};
ghost use Rattle.floorrules.specs.FloorBeam.{accept_loading, beam_answer_result};
ghost use Rattle.floorrules.specs.Loads.{loading_in_range, LoadingRanges, regime_of, moment_of, shear_of};

use floorrules::answer::BeamRefusal;
use floorrules::beam::Loading;
use rounding::round_up;

// Loads and span are within their ranges. Each load is held to the greatest total first, so that their sum fits.
pub fn loading_in_range(l: Loading) -> bool
    ensures { result ≡ loading_in_range l }
{
    if 100_000 < l.lasting || 100_000 < l.remaining {
        return false;
    }
    (100..=100_000).contains(&(l.lasting + l.remaining)) && (500..=20_000).contains(&l.span)
}

// Loads and a span within their ranges.
#[derive(Clone, Copy)]
pub struct Loads {
    pub loading: Loading,
    pub ghost in_range: { LoadingRanges loading },
}

// Loads and a span, refused where they are outside their ranges.
impl TryFrom<Loading> for Loads {
    type Error = BeamRefusal;

    ghost try_from_gives = { λ loading result. map_given (λ loads. loads.loading) (beam_answer_result result) ≡ accept_loading loading };

    fn try_from(loading: Loading) -> Result<Self, BeamRefusal> {
        if loading_in_range(loading) {
            Ok(Loads { loading })
        } else {
            Err(BeamRefusal::LoadOrSpan)
        }
    }
}

impl Loads {
    // The regime's code: Б where permanent and long-term load are more than 80 percent of the total, otherwise В. No enum: cell 3 and the answer hold it as a number.
    pub fn regime(self) -> u32
        ensures { result ≡ regime_of self.loading }
    {
        let l = self.loading;
        if 80 * (l.lasting + l.remaining) < 100 * l.lasting {
            2
        } else {
            3
        }
    }

    // M in N·mm, rounded up. M and Q stay two functions: they are different formulas, and one of factor and divisor would only move these to its callers.
    pub fn moment(self) -> u64
        ensures { result ≡ moment_of self.loading }
    {
        let l = self.loading;
        round_up((l.lasting + l.remaining) * (l.span * l.span), 8000)
    }

    // Q in N, rounded up.
    pub fn shear(self) -> u64
        ensures { result ≡ shear_of self.loading }
    {
        let l = self.loading;
        round_up((l.lasting + l.remaining) * l.span, 2000)
    }
}
