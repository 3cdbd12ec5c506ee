// The row of kind 2 that is made of a floor beam.
ghost use Rattle.std.specs.Prelude.{◌≡◌};
ghost use Rattle.cells.specs.Row.{cells_of};
ghost use Rattle.floorrules.specs.BeamRow.{bending_row};

use cells::row::Row;
use floorrules::beam::BeamCells;

// Kind 2 with a regime, M and Q, and the cells that were typed. Kind and regime are codes: a row's cells are whole numbers.
pub(crate) fn bending_row(regime: u32, moment: u64, shear: u64, typed: BeamCells) -> Row
    ensures { cells_of result ≡ bending_row regime moment shear typed }
{
    Row {
        cells: [
            Some(2),
            typed.grade,
            Some(u64::from(regime)),
            typed.moisture,
            typed.office,
            typed.width,
            typed.height,
            None,
            Some(moment),
            Some(shear),
            None,
            None,
            None,
            None,
            None,
            None,
            None,
            None,
            None,
            None,
            None,
            None,
        ],
    }
}
