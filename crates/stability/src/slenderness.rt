// Slenderness, checks 2 and 3.
ghost use Rattle.std.specs.Prelude.{◌≡◌};
ghost use Rattle.sp64.specs.Ranges.{InLimit};
ghost use Rattle.sp64.specs.Slenderness.{slenderness_holds};

use crate::strut::KnownStrut;

impl KnownStrut {
    // Whether the strut is within a limit of Table 16.
    pub fn slenderness_holds(self, limit: u64) -> bool
        requires { InLimit limit }
        ensures { result ≡ slenderness_holds limit self.strut }
    {
        12 * self.length_squared() <= limit * limit * self.side_squared()
    }
}
