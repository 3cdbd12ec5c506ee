// The design strengths for the host: its row of bytes read and checked, and the strengths with their remainders put into the lent answer.
ghost use Rattle.std.specs.Prelude.{◌≡◌, ℕ, length};
ghost use Rattle.cells.specs.Refusal.{by_number, leaves, result_of, told};
ghost use Rattle.cells.specs.Row.{cells_of};
ghost use Rattle.sp64.specs.Strength.{MaterialRanges};
ghost use Rattle.worksheet.specs.Strengths.{strengths_answered, strengths_bytes, strengths_returns, strengths_leaves};
ghost use Rattle.strengths.specs.Material.{material_in};

use answer::floats::write_numbers;
use cells::refusal::Refusal;
use cells::row::Row;
use reading::host_row::{read_row_into, row_room};
use rowcheck::check::check_row;
use sp64::strength::Material;
use sp64::tables::Stress;
use strength::design::{design_strength, material_of};

// The material that cells 2 to 5 of a row give. Acceptance takes it from the values of all 22 cells; here four are read.
fn material_in(row: Row) -> Material
    ensures { result ≡ material_in (cells_of row) }
{
    let cells = row.cells;
    material_of(
        cells[1].unwrap_or(0),
        cells[2].unwrap_or(0),
        cells[3].unwrap_or(0),
        cells[4].unwrap_or(0),
    )
}

// The strengths of a material in the answer's bytes, or the refusal of their length. The eight numbers stand by name: std has no method that flattens an array of pairs, and
// a loop that wrote pairs would count places.
fn write_strengths(m: Material, answer: &mut [u8]) -> Result<(), Refusal>
    requires { MaterialRanges m }
    ensures result { result_of result m ≡ strengths_answered (length answer.old) m }
    ensures buffer { answer.new ≡ leaves (strengths_answered (length answer.old) m) strengths_bytes answer.old }
{
    let bending = design_strength(Stress::Bending, m);
    let compression = design_strength(Stress::Compression, m);
    let tension = design_strength(Stress::Tension, m);
    let shear = design_strength(Stress::Shear, m);
    let numbers = [
        bending.strength,
        bending.remainder,
        compression.strength,
        compression.remainder,
        tension.strength,
        tension.remainder,
        shear.strength,
        shear.remainder,
    ];
    write_numbers(answer, &numbers)
}

// Puts the design strengths of the host's row of bytes into the answer: 0, or the refusal.
fn strengths_into(row: &[u8], answer: &mut [u8]) -> Result<u64, Refusal>
    ensures result { told (λ (n : ℕ). n) (by_number result) ≡ strengths_returns row.now (length answer.old) }
    ensures buffer { answer.new ≡ strengths_leaves row.now answer.old }
{
    let mut read = row_room();
    read_row_into(row, &mut read)?;
    // Before the check: after it, a second use of the row would have it copied for the check.
    let material = material_in(read);
    check_row(read)?;
    write_strengths(material, answer)?;
    Ok(0)
}

// Gives the design strengths of the host's row of bytes. Returns 0, or 1000 × number + cell: two lent slices and a number back, as the C entry has them.
pub fn host_strengths(row: &[u8], answer: &mut [u8]) -> u64
    ensures result { result ≡ strengths_returns row.now (length answer.old) }
    ensures buffer { answer.new ≡ strengths_leaves row.now answer.old }
{
    strengths_into(row, answer).unwrap_or_else(Refusal::code)
}
