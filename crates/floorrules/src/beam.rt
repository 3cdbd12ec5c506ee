// A floor beam as it is typed.
use cells::row::Cell;

// The loads on a floor beam, in N/m, and its span, in mm.
#[derive(Clone, Copy)]
pub struct Loading {
    // permanent and long-term loads
    pub lasting: u64,
    pub remaining: u64,
    pub span: u64,
}

// Cells 2 and 4 to 7 of the row that is made of the beam.
#[derive(Clone, Copy)]
pub struct BeamCells {
    pub grade: Cell,
    pub moisture: Cell,
    pub office: Cell,
    pub width: Cell,
    pub height: Cell,
}
