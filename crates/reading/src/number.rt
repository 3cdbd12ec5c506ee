// A float read to a whole number, from its bits.
ghost use Rattle.std.specs.Prelude.{◌≡◌};
ghost use Rattle.std.specs.Float.{binary64};
ghost use Rattle.std.specs.Float.Ieee.{of_bits};
ghost use Rattle.worksheet.specs.Number.{read_number};

use std::num::f64_to_bits_with_nan;
use worksheet::host_cell::{ReadError, Reading};

// The reading of the float with these bits: document 01 has it come from them, so it is no conversion of the library. The two zeros are each compared whole: a test of the bits below the sign would be
// compiled to a comparison of floats, to which a subnormal is zero where the host has set denormals to zero.
fn read_bits(bits: u64) -> Reading
    ensures { result ≡ read_number (of_bits binary64 bits) }
{
    if bits == 0 {
        return Ok(Some(0));
    }
    // −0
    if bits == 0x8000_0000_0000_0000 {
        return Ok(Some(0));
    }
    // below 0
    if 0x8000_0000_0000_0000 < bits {
        return Err(ReadError::NotWhole);
    }
    // below 1
    let exponent = bits / 0x10_0000_0000_0000;
    if exponent < 1023 {
        return Err(ReadError::NotWhole);
    }
    // from 2^34 up, with the infinity and the NaNs
    if 1056 < exponent {
        return Err(ReadError::NotWhole);
    }
    // digits / 2^places
    let digits = 0x10_0000_0000_0000 + bits % 0x10_0000_0000_0000;
    let places = 1075 - exponent;
    let number = digits >> places;
    if number << places != digits {
        return Err(ReadError::NotWhole);
    }
    Ok(Some(number))
}

// The reading of a float. A NaN, which has no bits that the language defines, is read as one pattern of a NaN.
pub(crate) fn read_number(x: f64) -> Reading
    ensures { result ≡ read_number x }
{
    read_bits(f64_to_bits_with_nan(x))
}
