// The host's row of bytes.
ghost use Rattle.std.specs.Prelude.{◌≡◌, ◌+◌, ◌≤◌, length};
ghost use Rattle.cells.specs.Refusal.{by_number, map_given, result_of, value_or};
ghost use Rattle.cells.specs.Row.{cells_of, row_of};
ghost use Rattle.cells.specs.HostBytes.{word_at};
ghost use Rattle.worksheet.specs.HostRow.{host_cell_bytes, host_cell_at, read_host_row};
ghost use Rattle.worksheet.specs.Reading.{read_cell};
ghost use Rattle.reading.specs.Room.{zeros};

use crate::host_cells::{read_cell, read_each};
use cells::refusal::Refusal;
use cells::row::{CELLS, Row, blank_row};
use std::num::f64_from_bits_with_nan;
use worksheet::host_cell::{HostCell, Reading};

// The bytes of a host's cell: one that says whether it is filled, and eight of the float.
pub const CELL_BYTES: usize = 9;

// The eight bytes from a place on as a number, lowest first. Bytes and a place here and below, as the definitions have them: of a slice from the place on, a law for each
// would have to say that it is the same. Byte by byte, which the check proves alone: `first_chunk` would need laws of parts of parts.
fn word_at(bytes: &[u8], at: usize) -> u64
    requires { at + 8 ≤ length bytes.now }
    ensures { result ≡ word_at bytes.now at }
{
    let word = &bytes[at..at + 8];
    u64::from_le_bytes([
        word[0], word[1], word[2], word[3], word[4], word[5], word[6], word[7],
    ])
}

// The host's cell whose bytes start at a place. A first byte that is neither 0 nor 1 makes it a NaN, which is unreadable.
fn host_cell_at(bytes: &[u8], at: usize) -> HostCell
    requires { at + host_cell_bytes ≤ length bytes.now }
    ensures { result ≡ host_cell_at bytes.now at }
{
    let filled = bytes[at];
    match filled {
        0 => HostCell::Blank,
        1 => HostCell::Number(f64_from_bits_with_nan(word_at(bytes, at + 1))),
        _ => HostCell::Number(f64::NAN),
    }
}

// The reading of the host's cell whose bytes start at a place.
pub fn read_host_cell(bytes: &[u8], at: usize) -> Reading
    requires { at + host_cell_bytes ≤ length bytes.now }
    ensures { result ≡ read_cell (host_cell_at bytes.now at) }
{
    read_cell(host_cell_at(bytes, at))
}

// The host's row, read to whole numbers: each cell where it stands, with no copy of the cells in between.
pub fn read_host_row(bytes: &[u8]) -> Result<Row, Refusal>
    ensures { map_given cells_of (by_number result) ≡ read_host_row bytes.now }
{
    let mut row = blank_row();
    read_row_into(bytes, &mut row)?;
    Ok(row)
}

// A row to be read into. None of its cells is blank: the compiler would write a run of zero bytes by a call of `memset`.
#[inline(always)]
pub fn row_room() -> Row
    ensures { result ≡ row_of zeros }
{
    Row {
        cells: [Some(0); CELLS],
    }
}

// Reads the host's row in place: handed over by value, it would be copied by calls of `memcpy`. A refusal leaves zeros, whatever the row held.
#[inline(always)]
pub fn read_row_into(bytes: &[u8], row: &mut Row) -> Result<(), Refusal>
    ensures result { result_of result (cells_of row.new) ≡ read_host_row bytes.now }
    ensures whole { cells_of row.new ≡ value_or zeros (read_host_row bytes.now) }
{
    *row = row_room();
    if bytes.len() != CELL_BYTES * CELLS {
        return Err(Refusal::RowLength);
    }
    // by place: `read_each` asks for the cell in a place
    let outcome = read_each(|i| host_cell_at(bytes, CELL_BYTES * i), row);
    if outcome.is_err() {
        *row = row_room();
    }
    outcome
}
