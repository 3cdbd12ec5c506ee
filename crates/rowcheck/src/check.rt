// Check a row.
ghost use Rattle.std.specs.Prelude.{◌≡◌};
ghost use Rattle.cells.specs.Refusal.{by_number};
ghost use Rattle.cells.specs.Row.{cells_of};
ghost use Rattle.member.specs.Demand3.{demand_factor, KeepsDemand3};
ghost use Rattle.member.specs.Verdict.{check_row};

use crate::judge::KnownMember;
use acceptance::accept::accept_row;
use cells::refusal::Refusal;
use cells::row::Row;
use member::verdict::Verdict;

// Check a row: the verdict, or a refusal by number and cell; a verdict keeps demand 3.
pub fn check_row(row: Row) -> Result<Verdict, Refusal>
    ensures result { by_number result ≡ check_row (cells_of row) }
    ensures demand { KeepsDemand3 (cells_of row) result demand_factor }
{
    let member = accept_row(row)?;
    Ok(KnownMember { member }.judge())
}
