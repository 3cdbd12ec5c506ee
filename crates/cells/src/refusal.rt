// The refusals of document 01, 1 to 7. What an answer of the code says in their numbers is a definition, `by_number`, or `result_of` where the value is handed over
// beside the answer: document 01 asks that the promises go by such a definition (decision 31).
ghost use Rattle.std.specs.Prelude.{◌≡◌};
ghost use Rattle.cells.specs.Refusal.{refusal_number, refusal_cell, refusal_code};

// Why an operation refuses, with the cell where there is one.
#[derive(Clone, Copy, Debug, PartialEq, Eq)]
pub enum Refusal {
    // 1: the host's row has another length.
    RowLength,
    // 1: a cell holds something else than a whole number below 2^34.
    Unreadable(u32),
    // 2: a cell that the kind asks for is blank, or one that it has no use for is filled.
    Misfilled(u32),
    // 3: a code is not known.
    UnknownCode(u32),
    // 4: a value is outside its range, or too wide to pack.
    OutOfRange(u32),
    // 5: the lent buffer is too short for the row, or has not the answer's length.
    BufferSize,
    // 6: the packed bytes end before the cell does.
    CutOff(u32),
    // 7: a padding bit of the packed row is 1.
    Padding,
}

impl Refusal {
    // Document 01's number of a refusal.
    pub fn number(self) -> u32
        ensures { result ≡ refusal_number self }
    {
        match self {
            Refusal::RowLength => 1,
            Refusal::Unreadable(_) => 1,
            Refusal::Misfilled(_) => 2,
            Refusal::UnknownCode(_) => 3,
            Refusal::OutOfRange(_) => 4,
            Refusal::BufferSize => 5,
            Refusal::CutOff(_) => 6,
            Refusal::Padding => 7,
        }
    }

    // The cell that a refusal names; document 01 gives 0 where it is tied to none.
    pub fn cell(self) -> u32
        ensures { result ≡ refusal_cell self }
    {
        match self {
            Refusal::RowLength => 0,
            Refusal::Unreadable(cell) => cell,
            Refusal::Misfilled(cell) => cell,
            Refusal::UnknownCode(cell) => cell,
            Refusal::OutOfRange(cell) => cell,
            Refusal::BufferSize => 0,
            Refusal::CutOff(cell) => cell,
            Refusal::Padding => 0,
        }
    }

    // What the host is told of a refusal: 1000 × number + cell.
    pub fn code(self) -> u64
        ensures { result ≡ refusal_code self }
    {
        1000 * u64::from(self.number()) + u64::from(self.cell())
    }
}
