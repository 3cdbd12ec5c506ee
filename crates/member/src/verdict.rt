// What the row check answers.

// Pass or fail, the check that the verdict names, its utilisation in millionths, and the dowel count. Utilisation, count and check, which become floats one after the
// other, stand apart: side by side, the compiler would turn two at once into floats, in a way that makes −0 of 0 where the host rounds down.
// The check is document 01's number of a `Check`: every output is that number, a float to the host or a field of a line.
// Utilisation and count are 0 where document 01 gives 0, after a yes-or-no check and without a joint: numbers of the answer, and no marks for none.
#[derive(Clone, Copy)]
pub struct Verdict {
    pub utilisation: u32,
    pub check: u32,
    pub passes: bool,
    pub count: u32,
}

// A check, by its number as in a verdict, and its utilisation.
#[derive(Clone, Copy)]
pub struct Governing {
    pub check: u32,
    pub utilisation: u32,
}

// A verdict with the number that a schedule gave its row.
#[derive(Clone, Copy)]
pub struct NumberedVerdict {
    pub number: u32,
    pub verdict: Verdict,
}
