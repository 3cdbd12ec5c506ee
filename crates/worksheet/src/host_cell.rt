// A cell as the host has it, and what it reads as.
use cells::row::Cell;

// A cell as the host has it. An enum of its own and no Option: document 01 names this form for it. It has no equality, since it holds a float.
#[derive(Clone, Copy)]
pub enum HostCell {
    Blank,
    Number(f64),
}

// Why a host's cell cannot be read.
#[derive(Clone, Copy, Debug, PartialEq, Eq)]
pub enum ReadError {
    // It holds something else than a whole number below 2^34.
    NotWhole,
}

// What a host's cell reads as.
pub type Reading = Result<Cell, ReadError>;
