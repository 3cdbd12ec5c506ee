// What a design strength follows from, and what is given of it.

// What the strengths of a row follow from: the grade, t and w in hundredths, the office factor o in thousandths. The grade is the cell's number and no enum: document 01
// has every table as a match on such a number, of which an unknown one gives 0.
#[derive(Clone, Copy)]
pub struct Material {
    pub grade: u64,
    pub duration: u64,
    pub moisture: u64,
    pub office: u64,
}

// A design strength R, in kPa, rounded down, and the remainder of its division, in ten-millionths of a kPa.
#[derive(Clone, Copy)]
pub struct DesignStrength {
    pub strength: u64,
    pub remainder: u64,
}
