// The program: calls of a kept schedule from standard input, a line for each to standard output.
#![tactic(auto)]

ghost use Rattle.std.specs.Prelude.{◌≡◌};
ghost use Rattle.cells.specs.Refusal.{by_number};
ghost use Rattle.keptrules.specs.Kept.{outcome_of};
ghost use Rattle.replay.specs.Asked.{answer_to};

mod call;
mod line;

use call::{CALL_BYTES, asked};
use cells::refusal::Refusal;
use kept::schedule::{empty, governing, perform};
use keptrules::answer::ScheduleRefusal;
use keptrules::call::{Call, Done};
use keptrules::schedule::Schedule;
use line::write_line;
use std::io;
use std::io::{BufRead, BufReader, BufWriter, Write};

// What a call gives: an add whose row cannot be read is refused with that, and reaches no schedule.
fn answer(schedule: &mut Schedule, call: Result<Call, Refusal>) -> Result<Done, ScheduleRefusal>
    ensures { outcome_of result schedule.new ≡ answer_to (by_number call) schedule.old }
{
    perform(schedule, call?)
}

// Why the program ends before its input does.
#[derive(Debug, Drop)]
enum ReplayError {
    // Reading or writing failed, or the input ended within a call.
    Stream(io::Error),
    // A first byte that is neither 1 nor 2.
    NotACall,
}

impl From<io::Error> for ReplayError {
    fn from(error: io::Error) -> ReplayError {
        ReplayError::Stream(error)
    }
}

// Answers call after call until the input ends. Nothing says that it does, and a proved loop has to end: it counts to a number that no input reaches.
fn replay(input: &mut impl BufRead, output: &mut impl Write) -> Result<(), ReplayError> {
    let mut schedule = empty();
    for _ in 0..u64::MAX {
        if input.fill_buf()?.is_empty() {
            break;
        }
        let mut bytes = [0; CALL_BYTES];
        input.read_exact(&mut bytes)?;
        let Some(call) = asked(&bytes) else {
            return Err(ReplayError::NotACall);
        };
        let answered = answer(&mut schedule, call);
        write_line(output, answered, governing(&schedule))?;
    }
    Ok(())
}

// The lines of the calls before an error are written too.
fn main(rt: HostRuntime) -> Result<(), ReplayError> {
    let mut input = BufReader::new(rt.alloc(), rt.stdin())?;
    let mut output = BufWriter::new(rt.alloc(), rt.stdout())?;
    let ended = replay(&mut input, &mut output);
    output.flush()?;
    ended
}
