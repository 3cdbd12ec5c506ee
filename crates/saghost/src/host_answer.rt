// A sag's verdict as the host gets it: seven floats in 56 lent bytes.
ghost use Rattle.std.specs.Prelude.{◌≡◌, length};
ghost use Rattle.cells.specs.Refusal.{leaves, result_of};
ghost use Rattle.worksheet.specs.HostAnswer.{Lossless};
ghost use Rattle.sagrules.specs.HostSag.{sag_answered, sag_answer_bytes, sag_numbers};

use answer::floats::write_numbers;
use cells::refusal::Refusal;
use sagrules::answer::SagVerdict;

// Puts a verdict into the answer's bytes; refuses another length and writes nothing. Seven floats in the host's order, and no struct of them (decision 139).
pub(crate) fn write_sag_verdict(v: SagVerdict, answer: &mut [u8]) -> Result<(), Refusal>
    requires { Lossless (sag_numbers v) }
    ensures result { result_of result v ≡ sag_answered (length answer.old) v }
    ensures buffer { answer.new ≡ leaves (sag_answered (length answer.old) v) sag_answer_bytes answer.old }
{
    let numbers = [
        u64::from(v.utilisation),
        u64::from(v.modulus),
        u64::from(v.elastic_duration),
        u64::from(v.moisture),
        u64::from(v.design_modulus),
        v.limit_moment,
        u64::from(v.shear_factor),
    ];
    write_numbers(answer, &numbers)
}
