// The sag check.
ghost use Rattle.std.specs.Prelude.{◌≡◌};
ghost use Rattle.cells.specs.Row.{cells_of};
ghost use Rattle.sagrules.specs.Demand.{sag_factor, KeepsSagDemand};
ghost use Rattle.sagrules.specs.SagCheck.{check_sag, sag_answer_result};

use crate::beam::accept_beam;
use cells::row::Row;
use sagfigures::sag::KnownSag;
use sagrules::answer::{SagRefusal, SagVerdict};
use sagrules::sag::Sag;

// Checks the sag of a row of kind 2: the verdict with the figures that it follows from, or a refusal by number and cell; a verdict keeps the reading of passes and fails.
pub fn check_sag(row: Row, sag: Sag) -> Result<SagVerdict, SagRefusal>
    ensures result { sag_answer_result result ≡ check_sag (cells_of row) sag }
    ensures demand { KeepsSagDemand (cells_of row) sag result sag_factor }
{
    let beam = accept_beam(row)?;
    let known = KnownSag::try_from(sag)?;
    Ok(beam.verdict(known))
}
