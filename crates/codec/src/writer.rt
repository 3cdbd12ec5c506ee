// Writing cells as bits, the most significant first. Bits wait in the cursor until they make a byte.
ghost use Rattle.std.specs.Prelude.{◌≡◌, false, [], ◌+◌, ◌*◌, ◌≤◌, ◌<◌, length};
ghost use Rattle.packed.specs.Packing.{cell_bits, row_bits, bytes_for, too_wide, lowest_wide, packed_into};
ghost use Rattle.codec.specs.Place.{Wrote};

use crate::cursor::Cursor;
use cells::row::Cell;

impl Cursor {
    // Writes the whole bytes of the bits that wait. A `while`: how many bytes go out hangs on the bits that wait. `as`: eight bits are below 256, and `TryFrom` would bring
    // an error that cannot be.
    fn flush(&mut self, out: &mut [u8])
        requires { self.old.at * 8 + self.old.count ≤ length out.old * 8 }
        ensures wrote { Wrote out.old out.new self.old self.new [] }
        ensures few { self.new.count < 8 }
    {
        while 8 <= self.count {
            out[self.at] = self.take(8) as u8;
            self.at += 1;
        }
    }

    // Writes one cell: a 0 for a blank, or a 1 and the value's 34 bits.
    fn write_cell(&mut self, out: &mut [u8], cell: Cell)
        requires few { self.old.count < 8 }
        requires narrow { too_wide cell ≡ false }
        requires room { self.old.at * 8 + self.old.count + length (cell_bits cell) ≤ length out.old * 8 }
        ensures wrote { Wrote out.old out.new self.old self.new (cell_bits cell) }
        ensures few { self.new.count < 8 }
    {
        match cell {
            None => self.append(1, 0),
            Some(value) => self.append(35, 0x4_0000_0000 + value),
        }
        self.flush(out);
    }
}

// Writes cells, where each is narrow enough and the buffer has room.
pub fn write_cells(cells: &[Cell], buffer: &mut [u8])
    requires narrow { lowest_wide cells.now ≡ 0 }
    requires room { bytes_for (length (row_bits cells.now)) ≤ length buffer.old }
    ensures { buffer.new ≡ packed_into cells.now buffer.old }
{
    let mut cursor = Cursor::start();
    for cell in cells {
        cursor.write_cell(buffer, *cell);
    }
    if 0 < cursor.count {
        let rest = 8 - cursor.count;
        cursor.append(rest, 0);
        cursor.flush(buffer);
    }
}
