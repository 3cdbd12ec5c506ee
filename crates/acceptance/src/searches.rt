// Searches through a row: for a joint begun, and for the lowest cell of each refusal. Kind and row stay two parameters: a row in a larger struct is copied when that is
// handed over, by a call of `memcpy` (decision 158).
ghost use Rattle.std.specs.Prelude.{◌≡◌, ◌≤◌, ℕ, Bool};
ghost use Rattle.cells.specs.Row.{cell_count, cells_of, Cell};
ghost use Rattle.member.specs.Acceptance.{misfilled, unknown_code, out_of_range, lowest_cell, is_begun};
ghost use Rattle.acceptance.specs.Search.{cell_found, search_between, Tests};
ghost use Rattle.std.specs.Option.{option_or};

use cellrules::rules::NumberedCell;
use cells::row::{CELLS, Row};
use member::kind::Kind;
use std::ops::Range;

// The lowest cell of which a test is true, of those of a part; cell 1 has place 0. By place, since over the slice
// of a part an iterator counts from 0 again. `as`: a place is below 22, and `TryFrom` would bring an error that cannot be.
#[inline(always)]
fn lowest_in<F: Fn(NumberedCell) -> bool>(row: Row, part: Range<usize>, test: F) -> Option<u32>
    requires inside { part.end ≤ cell_count }
    requires callable { F.IsAlwaysCallable test }
    ensures { (rule : ℕ → Cell → Bool) → Tests F.Fn test rule → result ≡ search_between rule (cells_of row) part.start part.end }
{
    for i in part.start..part.end {
        let number = i as u32 + 1;
        if test(NumberedCell {
            number,
            cell: row.cells[i],
        }) {
            return Some(number);
        }
    }
    None
}

// The same of one part after others: what they found, or what this one has. A function of its own, so that its contract says where the parts are cut. The searches of two parts go by
// `or_else` alone (decision 72).
#[inline(always)]
fn next_in<F: Fn(NumberedCell) -> bool>(
    found: Option<u32>,
    row: Row,
    part: Range<usize>,
    test: F,
) -> Option<u32>
    requires inside { part.end ≤ cell_count }
    requires callable { F.IsAlwaysCallable test }
    ensures { (rule : ℕ → Cell → Bool) → Tests F.Fn test rule → result ≡ option_or found (search_between rule (cells_of row) part.start part.end) }
{
    found.or_else(|| lowest_in(row, part, test))
}

// Whether a row has begun a joint.
#[inline(always)]
pub fn is_begun(kind: Kind, row: Row) -> bool
    ensures { result ≡ is_begun kind (cells_of row) }
{
    lowest_in(row, 0..CELLS, |cell| cell.begins_joint(kind)).is_some()
}

// The lowest cell that is blank or filled against its kind. The cells of a joint are a part of their own, so that the compiler writes both
// parts out, with what a kind fills in them.
#[inline(always)]
pub fn lowest_misfilled(kind: Kind, begun: bool, row: Row) -> Option<u32>
    ensures { result ≡ cell_found (lowest_cell (misfilled kind begun) (cells_of row)) }
{
    let test = |cell: NumberedCell| cell.is_misfilled(kind, begun);
    lowest_in(row, 0..13, test).or_else(|| lowest_in(row, 13..CELLS, test))
}

// The lowest cell with an unknown code. Only cells 2, 3 and 13 have codes.
#[inline(always)]
pub fn lowest_unknown(kind: Kind, row: Row) -> Option<u32>
    ensures { result ≡ cell_found (lowest_cell (unknown_code kind) (cells_of row)) }
{
    let test = |cell: NumberedCell| cell.is_unknown(kind);
    lowest_in(row, 1..3, test).or_else(|| lowest_in(row, 12..13, test))
}

// The lowest cell with a value outside its range. Parts of at most ten cells, which the compiler writes out with the ranges in them.
#[inline(always)]
pub fn lowest_outside(row: Row) -> Option<u32>
    ensures { result ≡ cell_found (lowest_cell out_of_range (cells_of row)) }
{
    let test = |cell: NumberedCell| cell.is_outside();
    let first = lowest_in(row, 0..7, test);
    let second = next_in(first, row, 7..13, test);
    next_in(second, row, 13..CELLS, test)
}
