// A check with its utilisation. A check goes by document 01's number, as in the verdict that the host gets (`member::verdict`): each of these hands on the number it
// is given. `InUtilisation` stays a clause: a utilisation is one number, and `Value` gives it with its range (decision 19). In contracts a
// check with its utilisation is written out: a definition would name the same two fields.
ghost use Rattle.std.specs.Prelude.{◌≡◌};
ghost use Rattle.rounding.specs.Utilisation.{InCapacity, InUtilisation, utilisation};

use member::verdict::Governing;

// The check of a utilisation. `as` and no `TryFrom`: by the range nothing is lost, and there is no error to hand on.
pub fn used_at(check: u32, utilisation: u64) -> Governing
    requires { InUtilisation utilisation }
    ensures { result ≡ record { check = check; utilisation = utilisation } }
{
    Governing {
        check,
        utilisation: utilisation as u32,
    }
}

// The check of a force against a capacity: `used_at` with their utilisation.
pub fn against(check: u32, force: u64, capacity: u64) -> Governing
    requires { InCapacity capacity }
    ensures { result ≡ record { check = check; utilisation = utilisation force capacity } }
{
    used_at(check, rounding::utilisation_of(force, capacity))
}
