// The step from a packed row to the next.
use crate::text::Line;

// A row's line, and where the next row starts.
#[derive(Clone, Copy)]
pub struct Step {
    pub line: Line,
    pub next: usize,
}
