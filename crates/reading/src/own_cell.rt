// A cell of an operation's own, beside those of a row.
ghost use Rattle.std.specs.Prelude.{◌≡◌, ◌+◌, ◌≤◌, length};
ghost use Rattle.worksheet.specs.HostRow.{host_cell_bytes, host_cell_at};
ghost use Rattle.worksheet.specs.OwnCell.{own_number};
ghost use Rattle.worksheet.specs.Reading.{read_cell};

use crate::host_row::read_host_cell;

// The number in the cell whose bytes start at a place, if it holds one. Bytes and a place, as in `host_row`.
pub fn own_number(bytes: &[u8], at: usize) -> Option<u64>
    requires { at + host_cell_bytes ≤ length bytes.now }
    ensures { result ≡ own_number (read_cell (host_cell_at bytes.now at)) }
{
    read_host_cell(bytes, at).ok().flatten()
}
