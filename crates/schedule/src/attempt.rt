// One call of a stream's read or write, and what came of it.
ghost use Rattle.std.specs.Prelude.{◌≡◌, length};
ghost use Rattle.std.specs.IoError.{error_kind};
ghost use Rattle.schedule.specs.Attempt.{Follows, Within, why_by_kind};

use std::io;
use std::io::{ErrorKind, Read, Write};

// Why a call moved no byte, other than that the input has ended.
#[derive(Clone, Copy, Debug, PartialEq, Eq)]
pub enum CallError {
    // The call is worth making again: a signal interrupted it, or it would have had to wait where the stream does not block.
    Later,
    Failed,
}

impl From<io::Error> for CallError {
    ghost from_gives = { λ error why. why ≡ why_by_kind (error_kind error) };

    fn from(error: io::Error) -> Self {
        match error.kind() {
            ErrorKind::Interrupted | ErrorKind::WouldBlock => CallError::Later,
            _ => CallError::Failed,
        }
    }
}

// So many bytes were moved, at least one. None: no byte was moved and the call did not fail, so an input has ended.
fn outcome(answer: io::Result<usize>) -> Result<Option<usize>, CallError>
    ensures { Follows answer result }
{
    let count = answer?;
    if count > 0 {
        return Ok(Some(count));
    }
    Ok(None)
}

pub fn read_once(stream: &mut impl Read, buf: &mut [u8]) -> Result<Option<usize>, CallError>
    ensures { Within (length buf.old) result }
{
    outcome(stream.read(buf))
}

pub fn write_once(stream: &mut impl Write, bytes: &[u8]) -> Result<Option<usize>, CallError>
    ensures { Within (length bytes.now) result }
{
    outcome(stream.write(bytes))
}
