// The line of a call.
ghost use Rattle.std.specs.Prelude.{◌≡◌, ◌++◌, OnOk};
ghost use Rattle.std.specs.Io.KnownBytes.{Appends};
ghost use Rattle.cells.specs.Refusal.{result_by};
ghost use Rattle.keptrules.specs.Kept.{schedule_refusal_number, schedule_refusal_cell};
ghost use Rattle.replay.specs.Line.{answer_text, governing_text, held_text, word_of};

use keptrules::answer::ScheduleRefusal;
use keptrules::call::Done;
use member::verdict::NumberedVerdict;
use std::io;
use std::io::Write;

fn write_answer<W: Write>(output: &mut W, answer: Result<Done, ScheduleRefusal>) -> io::Result<()>
    ensures { OnOk result (Appends (W.contents output.old) (W.contents output.new) (answer_text (result_by schedule_refusal_number schedule_refusal_cell answer))) }
{
    match answer {
        Ok(Done::Added(number)) => write!(output, "added {number}"),
        Ok(Done::Removed) => write!(output, "removed"),
        Err(refusal) => {
            let number = refusal.number();
            let cell = refusal.cell();
            write!(output, "refused {number} {cell}")
        }
    }
}

fn pass_or_fail(passes: bool) -> &'static str
    ensures { result.now ≡ word_of passes }
{
    if passes { "pass" } else { "fail" }
}

fn write_held<W: Write>(output: &mut W, held: NumberedVerdict) -> io::Result<()>
    ensures { OnOk result (Appends (W.contents output.old) (W.contents output.new) (held_text held)) }
{
    let number = held.number;
    let word = pass_or_fail(held.verdict.passes);
    let check = held.verdict.check;
    let utilisation = held.verdict.utilisation;
    let count = held.verdict.count;
    writeln!(
        output,
        " governing {number} {word} {check} {utilisation} {count}"
    )
}

fn write_governing<W: Write>(output: &mut W, governing: Option<NumberedVerdict>) -> io::Result<()>
    ensures { OnOk result (Appends (W.contents output.old) (W.contents output.new) (governing_text governing)) }
{
    match governing {
        Some(held) => write_held(output, held),
        None => writeln!(output, " governing none"),
    }
}

// What the call gave, and what governs after it.
pub fn write_line<W: Write>(
    output: &mut W,
    answer: Result<Done, ScheduleRefusal>,
    governing: Option<NumberedVerdict>,
) -> io::Result<()>
    ensures { OnOk result (Appends (W.contents output.old) (W.contents output.new) (answer_text (result_by schedule_refusal_number schedule_refusal_cell answer) ++ governing_text governing)) }
{
    write_answer(output, answer)?;
    write_governing(output, governing)
}
