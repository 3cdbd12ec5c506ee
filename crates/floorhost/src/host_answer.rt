// A floor beam's verdict as the host gets it: six floats in 48 lent bytes.
ghost use Rattle.std.specs.Prelude.{◌≡◌, ◌^◌, ◌≤◌, length};
ghost use Rattle.cells.specs.Refusal.{leaves, result_of, told};
ghost use Rattle.floorrules.specs.FloorBeam.{beam_answer_result, beam_refusal_code};
ghost use Rattle.floorrules.specs.HostBeam.{beam_answered, beam_bytes, beam_pass_or_fail};

use answer::floats::write_numbers;
use cells::refusal::Refusal;
use floorrules::answer::{BeamRefusal, BeamVerdict};

// What the host is told of a refusal: 1000 × number + cell. No method beside `Refusal::code`: the must-fail edit on this 8000 is one of this crate, so the number stays in it.
fn beam_refusal_code(refusal: BeamRefusal) -> u64
    ensures { result ≡ beam_refusal_code refusal }
{
    match refusal {
        BeamRefusal::LoadOrSpan => 8000,
        BeamRefusal::Row(refusal) => refusal.code(),
    }
}

// What the host is told: 0 for pass, 1 for fail, or the refusal. A number, since the C entry hands it on.
pub(crate) fn told(answered: Result<BeamVerdict, BeamRefusal>) -> u64
    ensures { result ≡ told beam_pass_or_fail (beam_answer_result answered) }
{
    match answered {
        Ok(v) => u64::from(!v.verdict.passes),
        Err(refusal) => beam_refusal_code(refusal),
    }
}

// Puts a verdict into the answer's bytes; refuses another length and writes nothing. Six floats in the host's order, and no struct of them (decision 139).
pub(crate) fn write_beam_verdict(v: BeamVerdict, answer: &mut [u8]) -> Result<(), Refusal>
    requires { (v.moment ≤ 2 ^ 53) × (v.shear ≤ 2 ^ 53) }
    ensures result { result_of result v ≡ beam_answered (length answer.old) v }
    ensures buffer { answer.new ≡ leaves (beam_answered (length answer.old) v) beam_bytes answer.old }
{
    let numbers = [
        u64::from(v.verdict.utilisation),
        u64::from(v.verdict.count),
        u64::from(v.verdict.check),
        u64::from(v.regime),
        v.moment,
        v.shear,
    ];
    write_numbers(answer, &numbers)
}
