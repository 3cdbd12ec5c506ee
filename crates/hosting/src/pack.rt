// Packing for the host: its row of bytes read, and packed into the lent buffer.
ghost use Rattle.std.specs.Prelude.{◌≡◌, length};
ghost use Rattle.cells.specs.Refusal.{by_number};
ghost use Rattle.worksheet.specs.Entries.{host_pack, pack_returns, pack_leaves};

use cells::refusal::Refusal;
use codec::pack::pack_row;
use reading::host_row::{read_row_into, row_room};

// Packs the host's row of bytes: the byte count, or the refusal. `as`: a usize has no `From` to u64.
fn pack_into(row: &[u8], buffer: &mut [u8]) -> Result<u64, Refusal>
    ensures result { by_number result ≡ host_pack row.now (length buffer.old) }
    ensures buffer { buffer.new ≡ pack_leaves row.now buffer.old }
{
    let mut read = row_room();
    read_row_into(row, &mut read)?;
    let count = pack_row(&read, buffer)?;
    Ok(count as u64)
}

// Packs the host's row of bytes. Returns the byte count, or 1000 × number + cell: two lent slices and a number back, as the C entry has them.
pub fn pack_host_row(row: &[u8], buffer: &mut [u8]) -> u64
    ensures result { result ≡ pack_returns row.now (length buffer.old) }
    ensures buffer { buffer.new ≡ pack_leaves row.now buffer.old }
{
    pack_into(row, buffer).unwrap_or_else(Refusal::code)
}
