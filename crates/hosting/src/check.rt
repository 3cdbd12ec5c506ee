// Checking for the host: its row of bytes read, checked, and the verdict put into the lent answer.
// The three entries over a row share two lines, which read it. A function that takes the rest as a closure was written: its contract needs a record of seven fields on what the
// closure is shown, gives and leaves, and each entry keeps a function with a contract of its own. That is no plainer.
ghost use Rattle.std.specs.Prelude.{◌≡◌, ℕ, length};
ghost use Rattle.cells.specs.Refusal.{by_number, told};
ghost use Rattle.member.specs.Demand3.{demand_factor};
ghost use Rattle.worksheet.specs.Entries.{verdict_returns, verdict_leaves, check_returns, check_leaves, HostKeepsDemand3};

use answer::answer::write_answer;
use cells::refusal::Refusal;
use member::verdict::Verdict;
use reading::host_row::{read_row_into, row_room};
use rowcheck::check::check_row;

// Puts a verdict into the answer: 0 for pass and 1 for fail, the rest of it in the bytes; or the refusal of the answer's length.
fn write_verdict(verdict: Verdict, answer: &mut [u8]) -> Result<u64, Refusal>
    ensures result { told (λ (n : ℕ). n) (by_number result) ≡ verdict_returns (length answer.old) verdict }
    ensures buffer { answer.new ≡ verdict_leaves verdict answer.old }
{
    write_answer(answer, verdict.utilisation, verdict.count, verdict.check)?;
    Ok(u64::from(!verdict.passes))
}

// Checks the host's row of bytes: 0 for pass, 1 for fail, the rest of the verdict in the answer's bytes; or the refusal.
fn check_into(row: &[u8], answer: &mut [u8]) -> Result<u64, Refusal>
    ensures result { told (λ (n : ℕ). n) (by_number result) ≡ check_returns row.now (length answer.old) }
    ensures buffer { answer.new ≡ check_leaves row.now answer.old }
{
    let mut read = row_room();
    read_row_into(row, &mut read)?;
    write_verdict(check_row(read)?, answer)
}

// Checks the host's row of bytes. Returns 0 for pass, 1 for fail, or 1000 × number + cell: two lent slices and a number back, as the C entry has them.
pub fn check_host_row(row: &[u8], answer: &mut [u8]) -> u64
    ensures result { result ≡ check_returns row.now (length answer.old) }
    ensures buffer { answer.new ≡ check_leaves row.now answer.old }
    ensures demand { HostKeepsDemand3 row.now answer.old result answer.new demand_factor }
{
    check_into(row, answer).unwrap_or_else(Refusal::code)
}
