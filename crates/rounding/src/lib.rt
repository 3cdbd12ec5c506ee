// Division rounded up, and the utilisation of a force against a capacity.
#![tactic(auto)]

ghost use Rattle.std.specs.Prelude.{◌≡◌, ◌+◌, ◌*◌, ◌^◌, ◌≤◌, ◌<◌};
ghost use Rattle.rounding.specs.Range.{Value};
ghost use Rattle.rounding.specs.Root.{whole_root};
ghost use Rattle.rounding.specs.Rounding.{up};
ghost use Rattle.rounding.specs.Utilisation.{InCapacity, InUtilisation, utilisation};

// n / d, rounded up. By the definition's formula, which a reader holds beside it: the library's `div_ceil` goes by another, and is no plainer.
pub fn round_up(n: u64, d: u64) -> u64
    requires { (0 < d) × (n + d ≤ 2 ^ 64) }
    ensures { result ≡ up n d }
{
    (n + (d - 1)) / d
}

// The whole square root of n, by Newton's steps: no guess is below the root, and the first that is not above its quotient is the root. The library's `isqrt` has the
// same contract and halves an interval 32 times, which takes three times as long.
pub fn whole_root(n: u64) -> u64
    ensures root { result ≡ whole_root n }
    ensures between { (result * result ≤ n) × (n < (result + 1) * (result + 1)) }
{
    if n == 0 {
        return 0;
    }
    // The first step is from the power of two next to the root, by which a shift divides.
    let digits = (n.ilog2() + 1) / 2;
    let mut guess = ((1 << digits) + (n >> digits)) / 2;
    let mut quotient = n / guess;
    while quotient < guess {
        guess = (guess + quotient) / 2;
        quotient = n / guess;
    }
    guess
}

// The utilisation of a force against a capacity, in millionths. 1,000,000 × force need not fit 64 bits, so the cap is tested before the product.
pub fn utilisation_of(force: u64, capacity: u64) -> u64
    requires { InCapacity capacity }
    ensures { Value InUtilisation (utilisation force capacity) result }
{
    if 9_999_999 * capacity / 1_000_000 < force {
        9_999_999
    } else {
        round_up(1_000_000 * force, capacity)
    }
}
