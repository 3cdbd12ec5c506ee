// A member as a strut.
ghost use Rattle.std.specs.Prelude.{◌≡◌};
ghost use Rattle.sp64.specs.Slenderness.{L², s², StrutRanges};

use sp64::strut::Strut;

// The strut of an effective length and of the side across which the member buckles over it. A literal in its place would take the two numbers in either order,
// and no contract of its own would say which is which.
pub fn strut(length: u16, side: u16) -> Strut
    ensures { result ≡ record { length = length; side = side } }
{
    Strut { length, side }
}

// A strut in its ranges; a struct of its own, as `KnownMaterial` (`strength`) says.
#[derive(Clone, Copy)]
pub struct KnownStrut {
    pub strut: Strut,
    pub ghost ranges: { StrutRanges strut },
}

impl KnownStrut {
    // L², widened first: 16 bits do not hold it.
    pub(crate) fn length_squared(self) -> u64
        ensures { result ≡ L² self.strut }
    {
        let length = u64::from(self.strut.length);
        length * length
    }

    // s², likewise.
    pub(crate) fn side_squared(self) -> u64
        ensures { result ≡ s² self.strut }
    {
        let side = u64::from(self.strut.side);
        side * side
    }
}
