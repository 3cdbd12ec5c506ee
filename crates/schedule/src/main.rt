// The program: packed rows from standard input, a line for each to standard output.
#![tactic(auto)]

mod attempt;
mod complaint;
mod disk;
mod transfer;
mod wait;

use complaint::Complaint;
use report::output::{MOST_INPUT, write_lines};
use std::io::Write;
use std::rt::{Clock, Files};
use transfer::{read_all, write_all};

// Room for a byte more than is taken in, so that a longer input is seen.
const INPUT_ROOM: usize = MOST_INPUT + 1;

// Room for the lines of so many bytes of input. It lies on the stack, of which the program needs 1.6 MB in all.
// An array and a length beside it, no `Vec`: the program's memory is fixed (decision 121).
const ROOM: usize = 22 * MOST_INPUT + 42;

// A function of its own: the check of one that makes so long an array itself takes more than ten minutes.
fn zeros<const N: usize>() -> [u8; N] {
    [0; N]
}

fn print_lines<S: Clock + Files>(
    system: &S,
    stdout: &mut impl Write,
    stderr: &mut impl Write,
    input: &[u8],
) -> Result<(), Complaint> {
    if input.len() > MOST_INPUT {
        Complaint::InputCut.say(system, stderr);
    }
    let mut text = zeros::<ROOM>();
    let len = write_lines(input, &mut text);
    deliver(system, stdout, &text[..len])
}

// Writes the lines. Where there is nothing to print, nothing is lost.
fn deliver<S: Clock + Files>(
    system: &S,
    stdout: &mut impl Write,
    lines: &[u8],
) -> Result<(), Complaint> {
    if lines.is_empty() {
        return Ok(());
    }
    write_all(system, stdout, lines).map_err(|_| Complaint::OutputLost)?;
    disk::sync(system).map_err(|_| Complaint::OutputLost)
}

// An input that could not be read to its end prints nothing: its first lines alone would look like a whole schedule.
fn run(rt: &HostRuntime) -> Result<(), Complaint> {
    let mut input = zeros::<INPUT_ROOM>();
    let len = read_all(rt, &mut rt.stdin(), &mut input).map_err(|_| Complaint::InputUnread)?;
    print_lines(rt, &mut rt.stdout(), &mut rt.stderr(), &input[..len])
}

fn main(rt: HostRuntime) {
    if let Err(complaint) = run(&rt) {
        complaint.say(&rt, &mut rt.stderr());
    }
}
