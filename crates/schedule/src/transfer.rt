// Whole inputs and outputs: calls are made until all bytes are moved, the input ends or a call fails. The library's own loops,
// `read_to_end` and `write_all`, do not wait where a stream does not block, and then tell nothing of what was moved.
ghost use Rattle.std.specs.Prelude.{◌<◌, ◌≤◌, ◌≡◌, ◌-◌, ℕ, length, IfOk, IfErr};
ghost use Rattle.schedule.specs.Attempt.{Within};
ghost use Rattle.io.specs.Counts.{IsPrefixLen};

use crate::attempt::{CallError, read_once, write_once};
use crate::wait::Waits;
use std::io::{Read, Write};
use std::rt::Clock;

// A transfer that broke off after so many bytes.
#[derive(Clone, Copy, Debug, PartialEq, Eq)]
pub struct BrokenOff {
    pub after: usize,
}

// Calls of a stream over bytes that it is lent. A trait and no closure: no clause of a closure ties what it counts to the
// bytes that are left.
trait Calls {
    // how many bytes it is lent
    ghost lent: { Self → ℕ };

    // Moves some of those from a place on.
    fn call(&mut self, from: usize) -> Result<Option<usize>, CallError>
        requires { from ≤ lent self.old }
        ensures within { Within (lent self.old - from) result }
        ensures kept { lent self.new ≡ lent self.old };
}

#[derive(Drop)]
struct Reads<'a, R> {
    stream: &'a mut R,
    buf: &'a mut [u8],
}

impl<'a, R: Read> Calls for Reads<'a, R> {
    ghost lent = { λ r. length r.buf.now };

    fn call(&mut self, from: usize) -> Result<Option<usize>, CallError> {
        read_once(self.stream, &mut self.buf[from..])
    }
}

#[derive(Drop)]
struct Writes<'a, W> {
    stream: &'a mut W,
    bytes: &'a [u8],
}

impl<'a, W: Write> Calls for Writes<'a, W> {
    ghost lent = { λ w. length w.bytes.now };

    fn call(&mut self, from: usize) -> Result<Option<usize>, CallError> {
        write_once(self.stream, &self.bytes[from..])
    }
}

// Makes calls until so many bytes are moved or a call meets an end: how many were moved.
fn move_all<C: Calls>(clock: &impl Clock, len: usize, calls: &mut C) -> Result<usize, BrokenOff>
    requires { C.lent calls.old ≡ len }
    ensures whole { IfOk result (λ moved. moved ≤ len) }
    ensures part { IfErr result (λ broken. broken.after < len) }
{
    let mut moved: usize = 0;
    let mut waits = Waits::new();
    while moved < len {
        match calls.call(moved) {
            Ok(Some(count)) => moved += count,
            Ok(None) => break,
            Err(error) => waits
                .wait_out(clock, error)
                .map_err(|_| BrokenOff { after: moved })?,
        }
    }
    Ok(moved)
}

// Reads until the buffer is full or the input ends: how many bytes were read. Where a read failed, more may have followed.
// Into a buffer of the caller's: the program's memory is fixed (decision 121).
pub fn read_all<R: Read>(
    clock: &impl Clock,
    stream: &mut R,
    buf: &mut [u8],
) -> Result<usize, BrokenOff>
    ensures whole { IfOk result (λ len. IsPrefixLen len buf.new) }
    ensures part { IfErr result (λ broken. IsPrefixLen broken.after buf.new) }
{
    let len = buf.len();
    move_all(clock, len, &mut Reads { stream, buf })
}

// Writes all bytes: how many there were. It breaks off at a write that takes none or fails: how many were taken then, by what the
// system answered.
pub fn write_all<W: Write>(
    clock: &impl Clock,
    stream: &mut W,
    bytes: &[u8],
) -> Result<usize, BrokenOff>
    ensures whole { IfOk result (λ n. n ≡ length bytes.now) }
    ensures part { IfErr result (λ broken. broken.after < length bytes.now) }
{
    let taken = move_all(clock, bytes.len(), &mut Writes { stream, bytes })?;
    if taken < bytes.len() {
        return Err(BrokenOff { after: taken });
    }
    Ok(taken)
}
