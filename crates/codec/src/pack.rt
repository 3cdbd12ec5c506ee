// Pack a row: into a lent buffer, or a refusal that leaves the buffer untouched.
ghost use Rattle.std.specs.Prelude.{◌≡◌, ◌≤◌, length};
ghost use Rattle.cells.specs.Row.{cell_count, cells_of};
ghost use Rattle.cells.specs.Refusal.{by_number};
ghost use Rattle.packed.specs.Packing.{pack_result, pack_buffer};

use crate::measure::measure;
use crate::writer::write_cells;
use cells::refusal::Refusal;
use cells::row::{Cell, Row};

// Packs cells: at most a row's.
pub fn pack_cells(cells: &[Cell], buffer: &mut [u8]) -> Result<usize, Refusal>
    requires { length cells.now ≤ cell_count }
    ensures result { by_number result ≡ pack_result cells.now (length buffer.old) }
    ensures buffer { buffer.new ≡ pack_buffer cells.now buffer.old }
{
    let bits = measure(cells)?;
    let size = bits.div_ceil(8);
    if buffer.len() < size {
        return Err(Refusal::BufferSize);
    }
    write_cells(cells, buffer);
    Ok(size)
}

// Pack a row.
pub fn pack_row(row: &Row, buffer: &mut [u8]) -> Result<usize, Refusal>
    ensures result { by_number result ≡ pack_result (cells_of row.now) (length buffer.old) }
    ensures buffer { buffer.new ≡ pack_buffer (cells_of row.now) buffer.old }
{
    pack_cells(&row.cells, buffer)
}
