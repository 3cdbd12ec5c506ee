// The tests of a cell: whether it begins a joint, and refusals 2, 3 and 4.
ghost use Rattle.std.specs.Prelude.{◌≡◌};
ghost use Rattle.member.specs.Cells.{required, optional, wanted, compressed, known_row, known_code};
ghost use Rattle.member.specs.Acceptance.{begins, misfilled, unknown_code, out_of_range};

use crate::ranges::is_in_range;
use cells::row::Cell;
use member::kind::Kind;
use sp64::tables::Stress;
use strength::tables::{duration_factor, slenderness_limit, table_strength};

// Whether a kind always fills cell n. Kind and number come apart, and are no struct: the judgement of a member asks this of cell 11 without a row. Each kind has
// its line, as in the definition.
pub fn is_required(kind: Kind, n: u32) -> bool
    ensures { result ≡ required kind n }
{
    match kind {
        Kind::Tension => (1..=8).contains(&n) || (11..=13).contains(&n),
        Kind::Bending => (1..=7).contains(&n) || (9..=10).contains(&n),
        Kind::Compression => (1..=8).contains(&n) || (11..=13).contains(&n),
        Kind::CompressionBending => (1..=13).contains(&n),
        Kind::TensionBending => (1..=13).contains(&n),
    }
}

// Whether cell n is one of which a kind fills all or none.
fn is_optional(kind: Kind, n: u32) -> bool
    ensures { result ≡ optional kind n }
{
    matches!(kind, Kind::Tension) && (14..=22).contains(&n)
}

// Whether a row of a kind fills cell n. The kind goes alone to every rule but this one and its misfilled cells, so it is no struct with `begun`.
fn is_wanted(kind: Kind, begun: bool, n: u32) -> bool
    ensures { result ≡ wanted kind begun n }
{
    is_required(kind, n) || (is_optional(kind, n) && begun)
}

// Kinds 3 and 4, whose rows of Table 16 are 1 to 3.
fn is_compressed(kind: Kind) -> bool
    ensures { result ≡ compressed kind }
{
    matches!(kind, Kind::Compression | Kind::CompressionBending)
}

// Whether a row of Table 16 is known and for the kind. A code is a number, as document 01 has it, and known where its table has a figure above 0 (decision 1).
fn is_known_row(kind: Kind, row: u64) -> bool
    ensures { result ≡ known_row kind row }
{
    (1 <= slenderness_limit(row)) && ((row <= 3) == is_compressed(kind))
}

// Whether the code in cell n is known, where that cell has one: by a match on the number by which the search goes.
fn is_known_code(kind: Kind, n: u32, code: u64) -> bool
    ensures { result ≡ known_code kind n code }
{
    match n {
        2 => 1 <= table_strength(Stress::Bending, code),
        3 => 1 <= duration_factor(code),
        13 => is_known_row(kind, code),
        _ => true,
    }
}

// A cell with its number, 1 for the first.
#[derive(Clone, Copy)]
pub struct NumberedCell {
    pub number: u32,
    pub cell: Cell,
}

impl NumberedCell {
    // Whether it begins a joint.
    pub fn begins_joint(self, kind: Kind) -> bool
        ensures { result ≡ begins kind self.number self.cell }
    {
        self.cell.is_some() && is_optional(kind, self.number)
    }

    // Whether it is blank or filled against its kind.
    pub fn is_misfilled(self, kind: Kind, begun: bool) -> bool
        ensures { result ≡ misfilled kind begun self.number self.cell }
    {
        self.cell.is_some() != is_wanted(kind, begun, self.number)
    }

    // Whether it has an unknown code.
    pub fn is_unknown(self, kind: Kind) -> bool
        ensures { result ≡ unknown_code kind self.number self.cell }
    {
        self.cell
            .is_some_and(|code| !is_known_code(kind, self.number, code))
    }

    // Whether it has a value outside its range.
    pub fn is_outside(self) -> bool
        ensures { result ≡ out_of_range self.number self.cell }
    {
        self.cell
            .is_some_and(|value| !is_in_range(self.number, value))
    }
}
