// The calls that change a schedule, and what they give.
use cells::row::Row;

#[derive(Clone, Copy)]
pub enum Call {
    Add(Row),
    // of the row with this number
    Remove(u32),
}

// What a call did that was not refused.
#[derive(Clone, Copy, Debug, PartialEq, Eq)]
pub enum Done {
    // with the number that the row got
    Added(u32),
    Removed,
}
