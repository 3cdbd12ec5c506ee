// The floor-beam check for the host: its bytes read, checked, and the verdict put into the lent answer.
ghost use Rattle.std.specs.Prelude.{◌≡◌, length};
ghost use Rattle.floorrules.specs.Demand.{floor_factor};
ghost use Rattle.floorrules.specs.FloorBeam.{beam_answer_result};
ghost use Rattle.floorrules.specs.HostBeam.{host_floor_beam, beam_returns, beam_leaves, HostKeepsFloorDemand};

use crate::host_answer::{told, write_beam_verdict};
use crate::host_cells::{read_beam_cells, read_loading};
use cells::refusal::Refusal;
use floorbeam::check::check_floor_beam;
use floorrules::answer::{BeamRefusal, BeamVerdict};

// Reads the host's floor beam, checks it and puts the verdict into the answer. The answer's length is tested last.
fn answer_floor_beam(beam: &[u8], answer: &mut [u8]) -> Result<BeamVerdict, BeamRefusal>
    ensures result { beam_answer_result result ≡ host_floor_beam beam.now (length answer.old) }
    ensures buffer { answer.new ≡ beam_leaves beam.now answer.old }
{
    if beam.len() != 72 {
        return Err(BeamRefusal::Row(Refusal::RowLength));
    }
    let loading = read_loading(beam)?;
    let typed = read_beam_cells(beam)?;
    let verdict = check_floor_beam(loading, typed)?;
    write_beam_verdict(verdict, answer)?;
    Ok(verdict)
}

// Checks the host's floor beam. Returns 0 for pass, 1 for fail, or 1000 × number + cell.
pub fn check_host_floor_beam(beam: &[u8], answer: &mut [u8]) -> u64
    ensures result { result ≡ beam_returns beam.now (length answer.old) }
    ensures buffer { answer.new ≡ beam_leaves beam.now answer.old }
    ensures demand { HostKeepsFloorDemand beam.now answer.old result answer.new floor_factor }
{
    told(answer_floor_beam(beam, answer))
}
