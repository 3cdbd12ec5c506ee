// The entries of the worksheet host: each hands on what it was lent. Five forwards of one form, since C links each by a name of its own. Document 01 has them on
// numbers and byte slices, and asks that each tell its whole result: so contracts and demand 3 stand here as they do at the operation.
ghost use Rattle.std.specs.Prelude.{◌≡◌, length};
ghost use Rattle.floorrules.specs.Demand.{floor_factor};
ghost use Rattle.floorrules.specs.HostBeam.{beam_returns, beam_leaves, HostKeepsFloorDemand};
ghost use Rattle.member.specs.Demand3.{demand_factor};
ghost use Rattle.sagrules.specs.Demand.{sag_factor};
ghost use Rattle.sagrules.specs.HostSag.{sag_returns, sag_leaves, HostKeepsSagDemand};
ghost use Rattle.worksheet.specs.Entries.{check_returns, check_leaves, pack_returns, pack_leaves, HostKeepsDemand3};
ghost use Rattle.worksheet.specs.Strengths.{strengths_returns, strengths_leaves};

use floorhost::host::check_host_floor_beam;
use hosting::check::check_host_row;
use hosting::pack::pack_host_row;
use saghost::host::check_host_sag;
use strengths::host::host_strengths;

// Checks the host's row of bytes. Returns 0 for pass, 1 for fail, or 1000 × number + cell.
#[unsafe(no_mangle)]
pub extern "C" fn lvl_check_row(row: &[u8], answer: &mut [u8]) -> u64
    ensures result { result ≡ check_returns row.now (length answer.old) }
    ensures buffer { answer.new ≡ check_leaves row.now answer.old }
    ensures demand { HostKeepsDemand3 row.now answer.old result answer.new demand_factor }
{
    check_host_row(row, answer)
}

// Packs the host's row of bytes. Returns the byte count, or 1000 × number + cell.
#[unsafe(no_mangle)]
pub extern "C" fn lvl_pack_row(row: &[u8], buffer: &mut [u8]) -> u64
    ensures result { result ≡ pack_returns row.now (length buffer.old) }
    ensures buffer { buffer.new ≡ pack_leaves row.now buffer.old }
{
    pack_host_row(row, buffer)
}

// Checks the host's floor beam. Returns 0 for pass, 1 for fail, or 1000 × number + cell.
#[unsafe(no_mangle)]
pub extern "C" fn lvl_check_floor_beam(beam: &[u8], answer: &mut [u8]) -> u64
    ensures result { result ≡ beam_returns beam.now (length answer.old) }
    ensures buffer { answer.new ≡ beam_leaves beam.now answer.old }
    ensures demand { HostKeepsFloorDemand beam.now answer.old result answer.new floor_factor }
{
    check_host_floor_beam(beam, answer)
}

// Gives the design strengths of the host's row of bytes. Returns 0, or 1000 × number + cell.
#[unsafe(no_mangle)]
pub extern "C" fn lvl_strengths(row: &[u8], answer: &mut [u8]) -> u64
    ensures result { result ≡ strengths_returns row.now (length answer.old) }
    ensures buffer { answer.new ≡ strengths_leaves row.now answer.old }
{
    host_strengths(row, answer)
}

// Judges the sag of the host's row of bytes. Returns 0 for pass, 1 for fail, or 1000 × number + cell.
#[unsafe(no_mangle)]
pub extern "C" fn lvl_check_sag(row: &[u8], sag: &[u8], answer: &mut [u8]) -> u64
    ensures result { result ≡ sag_returns row.now sag.now (length answer.old) }
    ensures buffer { answer.new ≡ sag_leaves row.now sag.now answer.old }
    ensures demand { HostKeepsSagDemand row.now sag.now answer.old result answer.new sag_factor }
{
    check_host_sag(row, sag, answer)
}
