// A kept schedule.
use arrayvec::ArrayVec;
use cells::row::{Row, blank_row};
use member::verdict::{NumberedVerdict, Verdict};

// How many rows a schedule holds at most.
pub const MOST_HELD: usize = 64;

// The last number that a schedule gives.
pub const LAST_NUMBER: u32 = 1_000_000;

// A row that is held, with its number and the verdict that it was accepted with.
#[derive(Clone, Copy)]
pub struct Entry {
    pub row: Row,
    pub judged: NumberedVerdict,
}

// What `ArrayVec` asks for: it puts this where no row is held.
impl Default for Entry {
    fn default() -> Entry {
        Entry {
            row: blank_row(),
            judged: NumberedVerdict {
                number: 0,
                verdict: Verdict {
                    utilisation: 0,
                    check: 0,
                    passes: false,
                    count: 0,
                },
            },
        }
    }
}

// The rows held, in the order of their adds, and the number that the next one gets. Both fields can be written by anyone: every operation answers for every value of them.
#[derive(Clone, Drop)]
pub struct Schedule {
    pub entries: ArrayVec<Entry, MOST_HELD>,
    pub next: u32,
}
