// Whole numbers as floats, and floats in lent bytes, any number of them.
ghost use Rattle.std.specs.Prelude.{◌≡◌, not, ◌*◌, ◌^◌, ◌≤◌, T, Float, length, map};
ghost use Rattle.std.specs.Float.Ieee.{is_nan};
ghost use Rattle.std.specs.List.{All};
ghost use Rattle.cells.specs.HostBytes.{whole_float};
ghost use Rattle.cells.specs.Refusal.{result_of};
ghost use Rattle.cells.proofs.FloatLaws.{whole_not_nan};
ghost use Rattle.worksheet.specs.HostAnswer.{floats_result, floats_buffer, whole_floats, Lossless, NoNans};

use cells::refusal::Refusal;

// A whole number as a float. Up to 2^53 nothing is lost. By `as`, the form that document 01 names.
pub fn whole_float(n: u64) -> f64
    requires { n ≤ 2 ^ 53 }
    ensures { (result ≡ whole_float n) × T (not (is_nan result)) }
{
    n as f64
}

// What is written as a float.
pub(crate) trait AsFloat: Copy {
    // the values that can be written
    ghost can: { Self → Type 0 };

    // the float that a value is written as
    ghost float: { Self → Float };

    fn as_float(self) -> f64
        requires { can self }
        ensures { result ≡ float self };

    ghost no_nan: { (x : Self) → can x → T (not (is_nan (float x))) };
}

// A float as it is.
impl AsFloat for f64 {
    ghost can = { λ x. T (not (is_nan x)) };

    ghost float = { λ x. x };

    ghost no_nan = { λ x can. can };

    fn as_float(self) -> f64 {
        self
    }
}

// A whole number that a float holds without loss.
impl AsFloat for u64 {
    ghost can = { λ n. n ≤ 2 ^ 53 };

    ghost float = { whole_float };

    ghost no_nan = { whole_not_nan };

    fn as_float(self) -> f64 {
        whole_float(self)
    }
}

// Fills lent bytes with values as floats, eight bytes each, the lowest first; refuses another length and writes nothing. Two tests: eight has to divide the
// length, and the count has to be that of the values.
fn write_each<X: AsFloat>(out: &mut [u8], values: &[X]) -> Result<(), Refusal>
    requires { All X.can values.now }
    ensures result { result_of result tt ≡ floats_result (length values.now) (length out.old) }
    ensures buffer { out.new ≡ floats_buffer (map X.float values.now) out.old }
{
    if out.len() % 8 != 0 {
        return Err(Refusal::BufferSize);
    }
    if out.len() / 8 != values.len() {
        return Err(Refusal::BufferSize);
    }
    // By place: of bytes that went out as `chunks_exact_mut` an invariant has no name, and nothing is known afterwards.
    for (i, value) in values.iter().enumerate() {
        let start = 8 * i;
        let end = start + 8;
        let bits = value.as_float().to_bits();
        out[start..end].copy_from_slice(&bits.to_le_bytes());
    }
    Ok(())
}

// Fills lent bytes with floats, eight bytes each; refuses another length and writes nothing.
pub fn write_floats(out: &mut [u8], floats: &[f64]) -> Result<(), Refusal>
    requires { NoNans floats.now }
    ensures result { result_of result tt ≡ floats_result (length floats.now) (length out.old) }
    ensures buffer { out.new ≡ floats_buffer floats.now out.old }
{
    write_each(out, floats)
}

// Fills lent bytes with whole numbers as floats, eight bytes each; refuses another length and writes nothing.
pub fn write_numbers(out: &mut [u8], numbers: &[u64]) -> Result<(), Refusal>
    requires { Lossless numbers.now }
    ensures result { result_of result tt ≡ floats_result (length numbers.now) (length out.old) }
    ensures buffer { out.new ≡ floats_buffer (whole_floats numbers.now) out.old }
{
    write_each(out, numbers)
}
