// The answer of a check as the host gets it.

// Utilisation, count and check number, in this order: document 01 names this struct of three floats.
#[derive(Clone, Copy)]
pub struct HostAnswer {
    pub utilisation: f64,
    pub count: f64,
    pub check: f64,
}
