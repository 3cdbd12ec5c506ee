// A call as it stands in the input.
ghost use Rattle.std.specs.Prelude.{◌≡◌, length};
ghost use Rattle.std.specs.Option.{option_map};
ghost use Rattle.cells.specs.Refusal.{by_number};
ghost use Rattle.replay.specs.Asked.{add_of, asked};

use cells::refusal::Refusal;
use keptrules::call::Call;
use reading::host_row::read_host_row;

// A byte that says which call it is, and a row as the host hands it over. A removal leaves most of them unread.
pub const CALL_BYTES: usize = 199;

const ADD: u8 = 1;

const REMOVE: u8 = 2;

// The add of a row that the host hands over.
fn add_of(row: &[u8]) -> Result<Call, Refusal>
    ensures { by_number result ≡ add_of row.now }
{
    Ok(Call::Add(read_host_row(row)?))
}

// The call that the bytes ask for, or why its row cannot be read; none for another first byte.
pub fn asked(bytes: &[u8; CALL_BYTES]) -> Option<Result<Call, Refusal>>
    ensures { option_map by_number result ≡ asked bytes.now }
{
    match bytes[0] {
        ADD => Some(add_of(&bytes[1..])),
        REMOVE => Some(Ok(Call::Remove(u32::from_le_bytes([
            bytes[1], bytes[2], bytes[3], bytes[4],
        ])))),
        _ => None,
    }
}
