// The kept schedule.
ghost use Rattle.std.specs.Prelude.{◌≡◌};
ghost use Rattle.std.specs.List.{position};
ghost use Rattle.keptrules.specs.Calls.{perform};
ghost use Rattle.keptrules.specs.Kept.{add, empty, governing, has_number, has_room, outcome_of, remove};

use arrayvec::ArrayVec;
use cells::row::Row;
use keptrules::answer::ScheduleRefusal;
use keptrules::call::{Call, Done};
use keptrules::schedule::{Entry, LAST_NUMBER, MOST_HELD, Schedule};
use member::verdict::NumberedVerdict;
use ranking::rank::governing_after;
use rowcheck::check::check_row;

// The schedule that holds nothing.
pub fn empty() -> Schedule
    ensures { result ≡ empty }
{
    Schedule {
        entries: ArrayVec::new(),
        next: 1,
    }
}

// Whether another row can be held and a number is left for it.
fn has_room(schedule: &Schedule) -> bool
    ensures { result ≡ has_room schedule.now }
{
    schedule.entries.len() < MOST_HELD && (1..=LAST_NUMBER).contains(&schedule.next)
}

// Adds a row: its number, or its refusal.
pub fn add(schedule: &mut Schedule, row: Row) -> Result<u32, ScheduleRefusal>
    ensures { outcome_of result schedule.new ≡ add row schedule.old }
{
    let verdict = check_row(row)?;
    if !has_room(schedule) {
        return Err(ScheduleRefusal::NoRoom);
    }
    let number = schedule.next;
    schedule.entries.push(Entry {
        row,
        judged: NumberedVerdict { number, verdict },
    });
    schedule.next = number + 1;
    Ok(number)
}

// Where the first row with a number stands.
fn place_of(entries: &[Entry], number: u32) -> Option<usize>
    ensures { result ≡ position (has_number number) entries.now }
{
    entries
        .iter()
        .position(|entry| entry.judged.number == number)
}

// Removes the row with a number.
pub fn remove(schedule: &mut Schedule, number: u32) -> Result<(), ScheduleRefusal>
    ensures { outcome_of result schedule.new ≡ remove number schedule.old }
{
    let Some(place) = place_of(schedule.entries.as_slice(), number) else {
        return Err(ScheduleRefusal::NotHeld);
    };
    schedule.entries.remove(place);
    Ok(())
}

// A call, and what it did.
pub fn perform(schedule: &mut Schedule, call: Call) -> Result<Done, ScheduleRefusal>
    ensures { outcome_of result schedule.new ≡ perform call schedule.old }
{
    match call {
        Call::Add(row) => add(schedule, row).map(Done::Added),
        Call::Remove(number) => remove(schedule, number).map(|()| Done::Removed),
    }
}

// The number and the verdict of the row that governs.
pub fn governing(schedule: &Schedule) -> Option<NumberedVerdict>
    ensures { result ≡ governing schedule.now }
{
    let mut found = None;
    for entry in schedule.entries.as_slice() {
        found = Some(governing_after(found, entry.judged));
    }
    found
}
