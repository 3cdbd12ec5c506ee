// The line of the packed row at a position, and where the next row starts.
ghost use Rattle.std.specs.Prelude.{cond, ◌++◌, ◌≡◌, ◌≤◌, length, flat_map};
ghost use Rattle.cells.specs.Refusal.{by_number, gives, refused_by};
ghost use Rattle.cells.specs.Row.{cells_of};
ghost use Rattle.member.specs.Verdict.{check_row};
ghost use Rattle.lines.specs.Line.{row_line, step_at};
ghost use Rattle.lines.specs.Text.{decimal, field, newline, pass_word, fail_word, line_of};

use cells::refusal::Refusal;
use cells::row::Row;
use codec::unpack::unpack_row;
use lines::line::Step;
use lines::text::Line;
use member::verdict::Verdict;
use rowcheck::check::check_row;
use text::text::{Field, empty, put_byte, put_field};

// The line of row `number`: a word, and numbers after it.
fn fields_line(number: u64, word: &str, numbers: &[u32]) -> Line
    requires short { length word.now ≤ 7 }
    requires few { length numbers.now ≤ 3 }
    ensures { result ≡ line_of (((decimal number ++ field word.now) ++ flat_map (λ n. field (decimal n)) numbers.now) ++ newline) }
{
    let mut line = empty();
    number.put(&mut line);
    put_field(&mut line, word);
    for n in numbers {
        put_field(&mut line, *n);
    }
    put_byte(&mut line, b'\n');
    line
}

fn refused_line(number: u64, refusal: Refusal) -> Line
    ensures { result ≡ line_of (row_line number (refused_by refusal)) }
{
    fields_line(number, "refused", &[refusal.number(), refusal.cell()])
}

fn pass_or_fail(passes: bool) -> &'static str
    ensures { result.now ≡ cond passes pass_word fail_word }
{
    if passes { "pass" } else { "fail" }
}

fn verdict_line(number: u64, verdict: Verdict) -> Line
    ensures { result ≡ line_of (row_line number (gives verdict)) }
{
    let word = pass_or_fail(verdict.passes);
    let numbers = [verdict.check, verdict.utilisation, verdict.count];
    fields_line(number, word, &numbers)
}

fn checked_line(number: u64, row: Row) -> Line
    ensures { result ≡ line_of (row_line number (check_row (cells_of row))) }
{
    match check_row(row) {
        Ok(verdict) => verdict_line(number, verdict),
        Err(refusal) => refused_line(number, refusal),
    }
}

// The line of row `number`, whose bytes start at a position, and the next position. The input and a position, as `step_at` has them.
// Where the input has ended there is no line: an empty one and no Option, since that is what `step_at` says of every position.
pub fn line_at(input: &[u8], at: usize, number: u64) -> Step
    ensures { result ≡ step_at input.now at number }
{
    if input.len() <= at {
        return Step {
            line: empty(),
            next: at,
        };
    }
    match unpack_row(&input[at..]) {
        Ok(unpacked) => Step {
            line: checked_line(number, unpacked.row),
            next: at + unpacked.bytes,
        },
        Err(refusal) => Step {
            line: refused_line(number, refusal),
            next: input.len(),
        },
    }
}
