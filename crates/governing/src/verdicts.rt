// The check that governs, and the verdicts.
ghost use Rattle.std.specs.Prelude.{◌≡◌};
ghost use Rattle.member.specs.Verdict.{greater_of, by_strength, failed_on};

use member::verdict::{Governing, Verdict};
use std::cmp::max_by_key;

// The greater utilisation, the first among equals. The library takes the second of two equals, so the later one is handed over first.
pub fn greater(x: Governing, y: Governing) -> Governing
    ensures { result ≡ greater_of x y }
{
    max_by_key(y, x, |g| g.utilisation)
}

// The verdict by strength.
pub fn by_strength(g: Governing, count: u32) -> Verdict
    ensures { result ≡ by_strength g count }
{
    Verdict {
        passes: g.utilisation <= 1_000_000,
        check: g.check,
        utilisation: g.utilisation,
        count,
    }
}

// The verdict that fails on a yes-or-no check, by its number: any number, as before, since an enum would take fewer. Utilisation 0 is document 01's; a strength check
// brings its own, so these are two functions.
pub fn failed_on(check: u32, count: u32) -> Verdict
    ensures { result ≡ failed_on check count }
{
    Verdict {
        passes: false,
        check,
        utilisation: 0,
        count,
    }
}
