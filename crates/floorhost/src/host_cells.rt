// The host's floor beam, cell by cell: loads and span, and the five cells of a row.
ghost use Rattle.std.specs.Prelude.{◌≡◌, ◌≤◌, length, true, Ok, IfOk, IfErr};
ghost use Rattle.cells.specs.Refusal.{by_number};
ghost use Rattle.cells.specs.declared.refusal.Refusal.TheVariants.{Unreadable};
ghost use Rattle.worksheet.specs.OwnCell.{own_result};
ghost use Rattle.worksheet.specs.Reading.{read_cell, is_unreadable};
ghost use Rattle.floorrules.specs.FloorBeam.{beam_answer_result};
ghost use Rattle.floorrules.specs.HostBeam.{beam_cell_at, load_at, host_loading, host_beam_cells};

use cells::refusal::Refusal;
use cells::row::Cell;
use floorloads::loads::Loads;
use floorrules::answer::BeamRefusal;
use floorrules::beam::{BeamCells, Loading};
use reading::host_row::{CELL_BYTES, read_host_cell};
use reading::own_cell::own_number;

// The number in a place of the beam, counted in cells. The places are those of the host's 72 bytes.
fn load_at(beam: &[u8], place: usize) -> Result<u64, BeamRefusal>
    requires { (length beam.now ≡ 72) × (place ≤ 7) }
    ensures { beam_answer_result result ≡ own_result 8 (load_at beam.now place) }
{
    own_number(beam, CELL_BYTES * place).ok_or(BeamRefusal::LoadOrSpan)
}

// The cell in a place of the beam, as in `load_at`. A refusal names it by its number in the row, `n`.
fn cell_at(beam: &[u8], place: usize, n: u32) -> Result<Cell, Refusal>
    requires { (length beam.now ≡ 72) × (place ≤ 7) }
    ensures ok { IfOk result (λ cell. read_cell (beam_cell_at beam.now place) ≡ Ok cell) }
    ensures err { IfErr result (λ e. (e ≡ Unreadable n) × (is_unreadable (read_cell (beam_cell_at beam.now place)) ≡ true)) }
{
    read_host_cell(beam, CELL_BYTES * place).map_err(|_| Refusal::Unreadable(n))
}

// The loads and the span in a beam of 72 bytes.
pub(crate) fn read_loading(beam: &[u8]) -> Result<Loading, BeamRefusal>
    requires { length beam.now ≡ 72 }
    ensures { beam_answer_result result ≡ host_loading beam.now }
{
    let lasting = load_at(beam, 0)?;
    let remaining = load_at(beam, 1)?;
    let span = load_at(beam, 2)?;
    let loads = Loads::try_from(Loading {
        lasting,
        remaining,
        span,
    })?;
    Ok(loads.loading)
}

// The five cells in a beam of 72 bytes, the lowest first: it is named where several are unreadable.
#[tactic(auto, unfolding(cells::specs::Lowest::lowest))]
pub(crate) fn read_beam_cells(beam: &[u8]) -> Result<BeamCells, Refusal>
    requires { length beam.now ≡ 72 }
    ensures { by_number result ≡ host_beam_cells beam.now }
{
    let grade = cell_at(beam, 3, 2)?;
    let moisture = cell_at(beam, 4, 4)?;
    let office = cell_at(beam, 5, 5)?;
    let width = cell_at(beam, 6, 6)?;
    let height = cell_at(beam, 7, 7)?;
    Ok(BeamCells {
        grade,
        moisture,
        office,
        width,
        height,
    })
}
