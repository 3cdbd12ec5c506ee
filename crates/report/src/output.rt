// All lines for an input, one after another.
ghost use Rattle.std.specs.Prelude.{◌≡◌, ◌++◌, ◌+◌, ◌≤◌, min, length, take, drop};
ghost use Rattle.io.specs.Counts.{IsPrefixLen};
ghost use Rattle.lines.specs.Output.{most_input, output, joined, room_for};

use crate::line::line_at;

// At most this many bytes of an input are taken in.
pub const MOST_INPUT: usize = 65536;

// Writes a line's text from a place on.
fn put_line(text: &[u8], out: &mut [u8], at: usize)
    requires { at + length text.now ≤ length out.old }
    ensures { out.new ≡ take at out.old ++ text.now ++ drop (at + length text.now) out.old }
{
    out[at..at + text.len()].copy_from_slice(text);
}

// What is taken in of an input: the rest is ignored.
fn taken_in(input: &[u8]) -> &[u8]
    ensures { result.now ≡ take most_input input.now }
{
    &input[..MOST_INPUT.min(input.len())]
}

// Writes the lines for an input into lent bytes, since the program has fixed memory, and answers how many bytes they are. No `for`: only
// the row itself tells where the next one starts.
pub fn write_lines(input: &[u8], out: &mut [u8]) -> usize
    requires { room_for (min most_input (length input.now)) ≤ length out.old }
    ensures count { result ≡ length (joined (output input.now)) }
    ensures buffer { out.new ≡ joined (output input.now) ++ drop result out.old }
    ensures inside { IsPrefixLen result out.new }
{
    let input = taken_in(input);
    let mut at: usize = 0;
    let mut number: u64 = 1;
    let mut len: usize = 0;
    while at < input.len() {
        let step = line_at(input, at, number);
        let line = step.line;
        put_line(&line.text[..line.len], out, len);
        len += line.len;
        at = step.next;
        number += 1;
    }
    len
}
