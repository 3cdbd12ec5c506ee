// The wait before a call is made again.
ghost use Rattle.std.specs.Prelude.{◌≡◌, ◌<◌, OnOk};

use crate::attempt::CallError;
use std::rt::Clock;
use std::thread;
use std::time::Duration;

// The waits that are left. A proved loop has to end, and nothing says that the other side comes back: they count down from a number
// that no run uses up.
#[derive(Drop)]
pub struct Waits {
    left: u64,
}

impl Waits {
    pub fn new() -> Self
        ensures { result.left ≡ 18446744073709551615 }
    {
        Waits { left: u64::MAX }
    }

    // Waits where a call that moved no byte is worth making again, and hands its error back where it is not.
    // A millisecond, so that others run and no core is burnt. Nothing ends the waiting but the other side of the stream, which may
    // stay away for ever, as that of a blocking stream may.
    pub fn wait_out(&mut self, clock: &impl Clock, error: CallError) -> Result<(), CallError>
        ensures { OnOk result (self.new.left < self.old.left) }
    {
        match error {
            CallError::Later if self.left > 0 => {
                self.left -= 1;
                thread::sleep(clock, Duration::from_millis(1));
                Ok(())
            }
            _ => Err(error),
        }
    }
}
