// The answer of a check as the host gets it: three floats in 24 lent bytes.
ghost use Rattle.std.specs.Prelude.{◌≡◌, length};
ghost use Rattle.cells.specs.Refusal.{result_of};
ghost use Rattle.worksheet.specs.HostAnswer.{host_answer, answer_room_result, answer_buffer};

use crate::floats::{whole_float, write_floats};
use cells::refusal::Refusal;
use worksheet::answer::HostAnswer;

// The three numbers of an answer, each as a float.
fn host_answer(utilisation: u32, count: u32, check: u32) -> HostAnswer
    ensures { result ≡ host_answer utilisation count check }
{
    HostAnswer {
        utilisation: whole_float(u64::from(utilisation)),
        count: whole_float(u64::from(count)),
        check: whole_float(u64::from(check)),
    }
}

// Fills 24 lent bytes with an answer; refuses another length and writes nothing. Three numbers as a verdict has them, the check by its number, and through the struct of
// three floats, which document 01 names: otherwise this were `write_numbers`.
pub fn write_answer(out: &mut [u8], utilisation: u32, count: u32, check: u32) -> Result<(), Refusal>
    ensures result { result_of result tt ≡ answer_room_result (length out.old) }
    ensures buffer { out.new ≡ answer_buffer utilisation count check out.old }
{
    let answer = host_answer(utilisation, count, check);
    let floats = [answer.utilisation, answer.count, answer.check];
    write_floats(out, &floats)
}
