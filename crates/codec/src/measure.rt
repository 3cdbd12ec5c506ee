// What cells ask of a buffer, found before anything is written.
ghost use Rattle.std.specs.Prelude.{◌≡◌, ◌≤◌, length};
ghost use Rattle.cells.specs.Row.{cell_count};
ghost use Rattle.packed.specs.Packing.{cell_bits, too_wide};
ghost use Rattle.codec.specs.Answers.{measure_of};

use cells::refusal::Refusal;
use cells::row::Cell;

// Refusal 4: the value has more than 34 bits.
fn is_too_wide(cell: Cell) -> bool
    ensures { result ≡ too_wide cell }
{
    cell.is_some_and(|value| 0x4_0000_0000 <= value)
}

// A blank is one bit, a value 34 bits after one that marks it.
fn bit_count(cell: Cell) -> usize
    ensures { result ≡ length (cell_bits cell) }
{
    cell.map_or(1, |_| 35)
}

// The bits of cells, unless one of them is too wide: then the lowest such cell. One loop for the sum and the search: a chain for each would go over the cells twice. `as`: a
// place is below 22, and `TryFrom` would bring an error that cannot be.
pub fn measure(cells: &[Cell]) -> Result<usize, Refusal>
    requires { length cells.now ≤ cell_count }
    ensures { result ≡ measure_of cells.now }
{
    let mut bits = 0;
    for (i, cell) in cells.iter().enumerate() {
        if is_too_wide(*cell) {
            return Err(Refusal::OutOfRange((i + 1) as u32));
        }
        bits += bit_count(*cell);
    }
    Ok(bits)
}
