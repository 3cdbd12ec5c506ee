// Read cells to whole numbers.
ghost use Rattle.std.specs.Prelude.{◌≡◌, ℕ, ◌+◌, ◌<◌, List, length, get_or};
ghost use Rattle.cells.specs.Refusal.{by_number, map_given, result_of};
ghost use Rattle.cells.specs.Row.{cell_count, cells_of};
ghost use Rattle.worksheet.specs.Reading.{read_cell, read_cells};
ghost use Rattle.worksheet.specs.declared.host_cell.HostCell.{HostCell};
ghost use Rattle.reading.specs.Cells.{ComeFrom, or_named};

use crate::number::read_number;
use cells::refusal::Refusal;
use cells::row::{CELLS, Cell, Row, blank_row};
use worksheet::host_cell::{HostCell, Reading};

// The reading of one cell: a match on its cases, as document 01 has it.
pub(crate) fn read_cell(cell: HostCell) -> Reading
    ensures { result ≡ read_cell cell }
{
    match cell {
        HostCell::Blank => Ok(None),
        HostCell::Number(x) => read_number(x),
    }
}

// The reading of the cell in a place of a row; where it is unreadable, the refusal that names it. `as`: a place is below 22, and `TryFrom`
// would bring an error that cannot be.
fn read_in_place(cell: HostCell, i: usize) -> Result<Cell, Refusal>
    requires { i < cell_count }
    ensures { result ≡ or_named (i + 1) (read_cell cell) }
{
    read_cell(cell).map_err(|_| Refusal::Unreadable((i + 1) as u32))
}

// Reads cell after cell into a row, as far as they are readable. Where a cell comes from, the caller knows: it is read where it stands.
#[inline(always)]
pub(crate) fn read_each<F: Fn(usize) -> HostCell>(cell_at: F, row: &mut Row) -> Result<(), Refusal>
    requires whole { length (cells_of row.old) ≡ cell_count }
    requires each { (i : ℕ) → i < cell_count → F.pre cell_at i }
    ensures { (cells : List HostCell) → ComeFrom cells (F.post cell_at) → result_of result (cells_of row.new) ≡ read_cells cells }
{
    for (i, slot) in row.cells.iter_mut().enumerate() {
        *slot = read_in_place(cell_at(i), i)?;
    }
    Ok(())
}

// Read cells to whole numbers.
pub fn read_cells(cells: [HostCell; CELLS]) -> Result<Row, Refusal>
    ensures { map_given cells_of (by_number result) ≡ read_cells cells }
{
    let mut row = blank_row();
    read_each(|i| cells[i], &mut row)?;
    Ok(row)
}
