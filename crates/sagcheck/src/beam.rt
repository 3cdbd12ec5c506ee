// The beam of a row.
ghost use Rattle.std.specs.Prelude.{◌≡◌};
ghost use Rattle.cells.specs.Refusal.{map_given};
ghost use Rattle.cells.specs.Row.{cells_of};
ghost use Rattle.sagrules.specs.SagCheck.{accept_beam, sag_answer_result};

use acceptance::accept::accept_row;
use cells::row::Row;
use member::kind::Kind;
use sagfigures::beam::KnownSagBeam;
use sagrules::answer::SagRefusal;
use sagrules::sag::SagBeam;

// The beam that a row describes: the row's refusals first, then that of another kind than bending. Its sides are widened here: a sag multiplies them at once.
pub fn accept_beam(row: Row) -> Result<KnownSagBeam, SagRefusal>
    ensures { map_given (λ known. known.beam) (sag_answer_result result) ≡ accept_beam (cells_of row) }
{
    let m = accept_row(row)?;
    match m.kind {
        Kind::Bending => Ok(KnownSagBeam {
            beam: SagBeam {
                grade: m.material.grade,
                regime: m.regime,
                moisture: m.material.moisture,
                width: u64::from(m.width),
                height: u64::from(m.height),
            },
        }),
        _ => Err(SagRefusal::NotBending),
    }
}
