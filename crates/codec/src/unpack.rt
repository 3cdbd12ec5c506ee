// Unpack a row: from lent bytes, or a refusal.
ghost use Rattle.std.specs.Prelude.{◌≡◌, ◌≤◌, ℕ, List, IfOk, take};
ghost use Rattle.cells.specs.Row.{cell_count, cells_of, blanks, Cell};
ghost use Rattle.cells.specs.Refusal.{by_number, map_given, refuses, value_or};
ghost use Rattle.packed.specs.Packing.{packed};
ghost use Rattle.packed.specs.Unpacking.{unpacked, held};

use crate::cursor::Cursor;
use cells::refusal::Refusal;
use cells::row::{CELLS, Row, blank_row};

// What was unpacked: the row, and the byte count that document 01 gives with it.
#[derive(Clone, Copy)]
pub struct UnpackedRow {
    pub row: Row,
    pub bytes: usize,
}

// What unpacking begins with, and what stands where it is refused, as `unwrap_or_default` gives it: a blank row, and no bytes.
impl Default for UnpackedRow {
    ghost is_default = { λ it. (number cell : ℕ) → ◌≡◌ {A = List Cell × ℕ} (cells_of it.row, it.bytes) (held (refuses number cell)) };

    fn default() -> Self {
        UnpackedRow {
            row: blank_row(),
            bytes: 0,
        }
    }
}

// Unpacks n cells into the first cells of a row. n is no length of what is lent: the row is made here. `as`: a place is below 22,
// and `TryFrom` would bring an error that cannot be.
pub fn unpack_cells(bytes: &[u8], n: usize) -> Result<UnpackedRow, Refusal>
    requires { n ≤ cell_count }
    ensures result { map_given (λ it. (take n (cells_of it.row), it.bytes)) (by_number result) ≡ unpacked n bytes.now }
    ensures whole { IfOk result (λ it. (cells_of it.row, it.bytes) ≡ held (unpacked n bytes.now)) }
{
    let mut unpacked = UnpackedRow::default();
    let mut cursor = Cursor::start();
    // by number: of a row after a loop over part of it by `iter_mut`, a proof knows nothing
    for i in 0..n {
        unpacked.row.cells[i] = cursor
            .next_cell(bytes)
            .ok_or(Refusal::CutOff((i + 1) as u32))?;
    }
    // whole bytes taken in and not read belong to what follows the row
    let padding = cursor.count % 8;
    if cursor.take(padding) != 0 {
        return Err(Refusal::Padding);
    }
    unpacked.bytes = cursor.at - cursor.count / 8;
    Ok(unpacked)
}

// Unpack a row: the 22 cells of `unpack_cells`, with a promise of its own. Packing what was unpacked gives the bytes that were read, whatever slice was lent.
pub fn unpack_row(bytes: &[u8]) -> Result<UnpackedRow, Refusal>
    ensures result { map_given (λ it. (cells_of it.row, it.bytes)) (by_number result) ≡ unpacked cell_count bytes.now }
    ensures whole { IfOk result (λ it. (cells_of it.row, it.bytes) ≡ value_or (blanks cell_count, 0) (unpacked cell_count bytes.now)) }
    ensures back { IfOk result (λ it. packed (cells_of it.row) ≡ take it.bytes bytes.now) }
{
    unpack_cells(bytes, CELLS)
}
