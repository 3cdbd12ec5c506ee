// The floor-beam check.
ghost use Rattle.std.specs.Prelude.{◌≡◌};
ghost use Rattle.floorrules.specs.Demand.{floor_factor, KeepsFloorDemand};
ghost use Rattle.floorrules.specs.FloorBeam.{floor_beam, beam_answer_result};

use crate::row::bending_row;
use floorloads::loads::Loads;
use floorrules::answer::{BeamRefusal, BeamVerdict};
use floorrules::beam::{BeamCells, Loading};
use rowcheck::check::check_row;

// Checks a floor beam: the verdict on its row with regime, M and Q, or a refusal by number and cell; a verdict keeps demand 3 at M and Q unrounded.
pub fn check_floor_beam(loading: Loading, typed: BeamCells) -> Result<BeamVerdict, BeamRefusal>
    ensures result { beam_answer_result result ≡ floor_beam loading typed }
    ensures demand { KeepsFloorDemand loading typed result floor_factor }
{
    let loads = Loads::try_from(loading)?;
    let regime = loads.regime();
    let moment = loads.moment();
    let shear = loads.shear();
    let row = bending_row(regime, moment, shear, typed);
    let verdict = check_row(row)?;
    Ok(BeamVerdict {
        verdict,
        regime,
        moment,
        shear,
    })
}
