// The host's sag check, cell by cell: span, moment and n.
ghost use Rattle.std.specs.Prelude.{◌≡◌, ◌≤◌, length};
ghost use Rattle.cells.specs.Refusal.{map_given};
ghost use Rattle.worksheet.specs.OwnCell.{own_number_at, own_result};
ghost use Rattle.sagrules.specs.HostSag.{read_host_sag};
ghost use Rattle.sagrules.specs.SagCheck.{sag_answer_result};

use reading::host_row::CELL_BYTES;
use reading::own_cell::own_number;
use sagfigures::sag::KnownSag;
use sagrules::answer::SagRefusal;
use sagrules::sag::Sag;

// The number in a place of the sag, counted in cells. The places are those of the host's 27 bytes.
fn number_at(sag: &[u8], place: usize) -> Result<u64, SagRefusal>
    requires { (length sag.now ≡ 27) × (place ≤ 2) }
    ensures { sag_answer_result result ≡ own_result 10 (own_number_at sag.now place) }
{
    own_number(sag, CELL_BYTES * place).ok_or(SagRefusal::SagCell)
}

// Span, moment and n, each in its range. A sag of another length is refused like a number outside its range.
pub(crate) fn read_sag(sag: &[u8]) -> Result<KnownSag, SagRefusal>
    ensures { map_given (λ known. known.sag) (sag_answer_result result) ≡ read_host_sag sag.now }
{
    if sag.len() != 27 {
        return Err(SagRefusal::SagCell);
    }
    let span = number_at(sag, 0)?;
    let moment = number_at(sag, 1)?;
    let ratio = number_at(sag, 2)?;
    KnownSag::try_from(Sag {
        span,
        moment,
        ratio,
    })
}
