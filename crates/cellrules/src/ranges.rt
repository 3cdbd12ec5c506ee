// The ranges of the cells.
ghost use Rattle.std.specs.Prelude.{◌≡◌, false};
ghost use Rattle.std.specs.Range.{range_inclusive_start, range_inclusive_end, range_inclusive_exhausted};
ghost use Rattle.member.specs.Cells.{least_of, greatest_of, in_range};

use std::ops::RangeInclusive;

// The range of cell n. A match and not an array, which would be built anew at every use. There is no cell 0 and none after 22: for them it gives what the definition does.
fn range_of(n: u32) -> RangeInclusive<u64>
    ensures least { range_inclusive_start result ≡ least_of n }
    ensures greatest { range_inclusive_end result ≡ greatest_of n }
    ensures fresh { range_inclusive_exhausted result ≡ false }
{
    match n {
        // A code is of any size.
        0..=3 | 13 => 0..=u64::MAX,
        4 => 0..=60,
        5 => 500..=1000,
        6 => 20..=300,
        7 => 60..=2500,
        8 => 1..=100_000_000,
        9 => 1..=10_000_000_000,
        10 => 0..=100_000_000,
        11 | 12 => 100..=20_000,
        14 => 10..=300,
        15 => 6..=40,
        16 => 1..=20,
        17 => 1..=20_000,
        18..=20 | 22 => 100..=5000,
        21 => 0..=5000,
        _ => 0..=0,
    }
}

// Whether the value in cell n is in its range.
pub fn is_in_range(n: u32, value: u64) -> bool
    ensures { result ≡ in_range n value }
{
    range_of(n).contains(&value)
}
