// The rank of a verdict, and the one of several that governs.
ghost use Rattle.std.specs.Prelude.{◌≡◌};
ghost use Rattle.cells.specs.Greatest.{greater_after};
ghost use Rattle.member.specs.Rank.{rank, numbered_rank};

use member::verdict::{NumberedVerdict, Verdict};

// The rank of a fail on layout, slenderness or joint length: above the utilisation of every verdict by the rules.
const YES_NO_RANK: u32 = 10_000_000;

// The rank of a verdict: its utilisation but for a fail on one of checks 1 to 4.
pub fn rank(verdict: Verdict) -> u32
    ensures { result ≡ rank verdict }
{
    if !verdict.passes && (1..=4).contains(&verdict.check) {
        YES_NO_RANK
    } else {
        verdict.utilisation
    }
}

// Of the verdict that governed so far and the next one, the one that governs: the earlier among equals.
pub fn governing_after(so_far: Option<NumberedVerdict>, next: NumberedVerdict) -> NumberedVerdict
    ensures { result ≡ greater_after numbered_rank so_far next }
{
    match so_far {
        Some(first) if rank(next.verdict) <= rank(first.verdict) => first,
        _ => next,
    }
}
