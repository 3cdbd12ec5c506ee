// Reading cells from bits, the most significant first. Bytes are taken in until the cursor has a whole cell on hand.
ghost use Rattle.codec.specs.Place.{Reached, TookIn, Reads};

use crate::cursor::Cursor;
use cells::row::Cell;

impl Cursor {
    // Takes bytes in until 35 bits are on hand or the input ends. A `while`: how many bytes come in hangs on the bits on hand.
    fn take_in(&mut self, bytes: &[u8])
        requires { Reached bytes.now self.old }
        ensures { TookIn bytes.now self.old self.new }
    {
        while self.count < 35 && self.at < bytes.len() {
            self.append(8, u64::from(bytes[self.at]));
            self.at += 1;
        }
    }

    // Reads one cell; none where the input ends before it does.
    #[tactic(auto, using(crate::proofs::ReaderLaws::reads_end, crate::proofs::ReaderLaws::reads_blank, crate::proofs::ReaderLaws::reads_short, crate::proofs::ReaderLaws::reads_whole))]
    pub fn next_cell(&mut self, bytes: &[u8]) -> Option<Cell>
        requires { Reached bytes.now self.old }
        ensures { Reads bytes.now self.old self.new result }
    {
        self.take_in(bytes);
        if self.count == 0 {
            return None;
        }
        if self.take(1) == 0 {
            return Some(None);
        }
        if self.count < 34 {
            return None;
        }
        Some(Some(self.take(34)))
    }
}
