// Accept a row: the member that it describes, or why it is refused. All of this crate is written out where it is called (`inline(always)`): a call of any part would be handed a row
// or a member through memory, copied by a call of `memcpy`, and the archive is to call nothing (decision 170).
ghost use Rattle.std.specs.Prelude.{◌≡◌};
ghost use Rattle.cells.specs.Refusal.{by_number};
ghost use Rattle.cells.specs.Row.{cells_of};
ghost use Rattle.member.specs.Acceptance.{accept_kind, accept};

use crate::naming::member_of;
use crate::searches::{is_begun, lowest_misfilled, lowest_outside, lowest_unknown};
use cellrules::kind::kind_of;
use cells::refusal::Refusal;
use cells::row::Row;
use member::kind::Kind;
use member::member::Member;

// Refusals 2, 3 and 4 of a row of a known kind, otherwise the member. Three tests and no `?`: none is the good case here, so that there is nothing to hand on.
#[inline(always)]
fn accept_kind(kind: Kind, row: Row) -> Result<Member, Refusal>
    ensures { by_number result ≡ accept_kind kind (cells_of row) }
{
    let begun = is_begun(kind, row);
    if let Some(cell) = lowest_misfilled(kind, begun, row) {
        return Err(Refusal::Misfilled(cell));
    }
    if let Some(cell) = lowest_unknown(kind, row) {
        return Err(Refusal::UnknownCode(cell));
    }
    if let Some(cell) = lowest_outside(row) {
        return Err(Refusal::OutOfRange(cell));
    }
    Ok(member_of(kind, begun, row))
}

// "Check a row", its refusals 2, 3 and 4: the member that a row describes, or a refusal by number and cell.
#[inline(always)]
pub fn accept_row(row: Row) -> Result<Member, Refusal>
    ensures { by_number result ≡ accept (cells_of row) }
{
    let code = row.cells[0].ok_or(Refusal::Misfilled(1))?;
    let kind = kind_of(code).ok_or(Refusal::UnknownCode(1))?;
    accept_kind(kind, row)
}
