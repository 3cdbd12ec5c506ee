// A sag check as it is asked for, and the beam that sags.

// The three numbers of the check's own: the span L in mm, the unfactored moment Mn in N·mm, and n, the ratio of span to sag: the limit is span / n.
#[derive(Clone, Copy)]
pub struct Sag {
    pub span: u64,
    pub moment: u64,
    pub ratio: u64,
}

// What a sag follows from of a row: its grade and its regime, by their codes, w in hundredths, b and h.
#[derive(Clone, Copy)]
pub struct SagBeam {
    pub grade: u64,
    pub regime: u64,
    pub moisture: u64,
    pub width: u64,
    pub height: u64,
}
