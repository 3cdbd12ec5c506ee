// The sag check for the host: its row and its sag read and judged, and the verdict put into the lent answer.
ghost use Rattle.std.specs.Prelude.{◌≡◌, ℕ, length};
ghost use Rattle.cells.specs.Refusal.{told};
ghost use Rattle.sagrules.specs.Demand.{sag_factor};
ghost use Rattle.sagrules.specs.HostSag.{sag_returns, sag_leaves, HostKeepsSagDemand};
ghost use Rattle.sagrules.specs.SagCheck.{sag_answer_result};

use crate::host_answer::write_sag_verdict;
use crate::host_cells::read_sag;
use reading::host_row::{read_row_into, row_room};
use sagcheck::beam::accept_beam;
use sagrules::answer::SagRefusal;

// Judges the sag of the host's row: 0 for pass, 1 for fail, the figures in the answer's bytes; or the refusal. First the row, then the sag, last the answer's length. Not by
// `check_sag`, which takes three numbers: of a host's three one may be missing, which is refused only after all that is wrong with the row (decision 173).
fn sag_into(row: &[u8], sag: &[u8], answer: &mut [u8]) -> Result<u64, SagRefusal>
    ensures result { told (λ (n : ℕ). n) (sag_answer_result result) ≡ sag_returns row.now sag.now (length answer.old) }
    ensures buffer { answer.new ≡ sag_leaves row.now sag.now answer.old }
{
    let mut read = row_room();
    read_row_into(row, &mut read)?;
    let beam = accept_beam(read)?;
    let known = read_sag(sag)?;
    let verdict = beam.verdict(known);
    write_sag_verdict(verdict, answer)?;
    Ok(u64::from(!verdict.passes))
}

// Judges the sag of the host's row. Returns 0 for pass, 1 for fail, or 1000 × number + cell: lent slices and a number back, as the C entry has them.
pub fn check_host_sag(row: &[u8], sag: &[u8], answer: &mut [u8]) -> u64
    ensures result { result ≡ sag_returns row.now sag.now (length answer.old) }
    ensures buffer { answer.new ≡ sag_leaves row.now sag.now answer.old }
    ensures demand { HostKeepsSagDemand row.now sag.now answer.old result answer.new sag_factor }
{
    sag_into(row, sag, answer).unwrap_or_else(SagRefusal::code)
}
