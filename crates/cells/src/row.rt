// A cell of whole numbers, and the row.
ghost use Rattle.std.specs.Prelude.{◌≡◌};
ghost use Rattle.cells.specs.Row.{blank_row};

// How many cells a row has: `cell_count`, as `blank_row` shows.
pub const CELLS: usize = 22;

// A cell of a row: a whole number, or none where it is blank.
pub type Cell = Option<u64>;

// The cells of a row, cell 1 first. By number and not by name: document 01 packs them in order and names a refused one by its number; `Member` has the names. Contracts
// take the list of them, `cells_of`, as the definitions do.
#[derive(Clone, Copy)]
pub struct Row {
    pub cells: [Cell; CELLS],
}

// The row in which every cell is blank: no `Default`, since it goes by the definition's name.
pub fn blank_row() -> Row
    ensures { result ≡ blank_row }
{
    Row {
        cells: [None; CELLS],
    }
}
