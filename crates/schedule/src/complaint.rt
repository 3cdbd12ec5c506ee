// What the program says on standard error, a line for each case. Its exit status tells of none of them: these lines are what a
// script has to look for.
use crate::transfer::write_all;
use std::io::Write;
use std::rt::Clock;

#[derive(Clone, Copy, Debug, PartialEq, Eq)]
pub(crate) enum Complaint {
    InputUnread,
    InputCut,
    OutputLost,
}

impl Complaint {
    fn line(self) -> &'static str {
        match self {
            Complaint::InputUnread => {
                "schedule: standard input could not be read to its end: nothing is printed\n"
            }
            Complaint::InputCut => {
                "schedule: the input is longer than 65,536 bytes: the rest is ignored\n"
            }
            Complaint::OutputLost => {
                "schedule: standard output could not be written to its end: lines are lost\n"
            }
        }
    }

    // Where standard error cannot be written either, nothing is left to be done. No `Display`: the line goes through `write_all` of
    // `transfer`, which waits where standard error does not block, and the library's `write!` does not.
    pub(crate) fn say(self, clock: &impl Clock, stderr: &mut impl Write) {
        let _ = write_all(clock, stderr, self.line().as_bytes());
    }
}
