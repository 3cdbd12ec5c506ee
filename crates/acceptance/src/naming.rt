// The member that a row describes, from its cells. Here alone each place of a row gets its name; a blank is 0, and whether there is a joint stands beside, as in `Member`.
// Functions and no `From`: arrays and members are types of other crates.
ghost use Rattle.std.specs.Prelude.{◌≡◌};
ghost use Rattle.cells.specs.Row.{cells_of};
ghost use Rattle.member.specs.Acceptance.{out_of_range, lowest_cell};
ghost use Rattle.member.specs.Member.{values_of, joint_of, member_of};

use cells::row::{CELLS, Row};
use member::kind::Kind;
use member::member::Member;
use sp64::joint::Joint;
use strength::design::material_of;

// The values of a row's cells. A loop, since `row.cells.map(..)` goes through an iterator that owns the cells: accepting a row then took 1,240 instructions
// instead of 640.
#[inline(always)]
fn values_of(row: Row) -> [u64; CELLS]
    ensures { result ≡ values_of (cells_of row) }
{
    let mut values = [0; CELLS];
    for (i, cell) in row.cells.iter().enumerate() {
        values[i] = cell.unwrap_or(0);
    }
    values
}

// Cells 14 to 22 by name.
#[inline(always)]
fn joint_of(values: [u64; CELLS]) -> Joint
    ensures { result ≡ joint_of values }
{
    Joint {
        side: values[13],
        diameter: values[14],
        across: values[15],
        available: values[16],
        kc: values[17],
        ka: values[18],
        kb: values[19],
        ke: values[20],
        km: values[21],
    }
}

// The cells by name of a row in which none is outside its range. `as`: no width, height or effective length is then above 20,000, so that 16 bits lose nothing of it,
// and `TryFrom` would bring an error that cannot be.
#[inline(always)]
pub fn member_of(kind: Kind, jointed: bool, row: Row) -> Member
    requires { lowest_cell out_of_range (cells_of row) ≡ 0 }
    ensures { result ≡ member_of kind jointed (values_of (cells_of row)) }
{
    let values = values_of(row);
    let material = material_of(values[1], values[2], values[3], values[4]);
    let joint = joint_of(values);
    Member {
        kind,
        material,
        regime: values[2],
        width: values[5] as u16,
        height: values[6] as u16,
        force: values[7],
        moment: values[8],
        shear: values[9],
        lh: values[10] as u16,
        lb: values[11] as u16,
        table16: values[12],
        jointed,
        joint,
    }
}
