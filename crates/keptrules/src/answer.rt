// The refusals of a kept schedule.
ghost use Rattle.std.specs.Prelude.{◌≡◌};
ghost use Rattle.keptrules.specs.Kept.{schedule_refusal_number, schedule_refusal_cell};
ghost use Rattle.keptrules.specs.declared.answer.ScheduleRefusal.TheVariants.{Row};

use cells::refusal::Refusal;

// Why a call is refused.
#[derive(Clone, Copy, Debug, PartialEq, Eq)]
pub enum ScheduleRefusal {
    // The row's own refusal.
    Row(Refusal),
    // 11: 64 rows are held, or the numbers are spent.
    NoRoom,
    // 12: no row with the number is held.
    NotHeld,
}

impl ScheduleRefusal {
    // The number of a refusal.
    pub fn number(self) -> u32
        ensures { result ≡ schedule_refusal_number self }
    {
        match self {
            ScheduleRefusal::Row(refusal) => refusal.number(),
            ScheduleRefusal::NoRoom => 11,
            ScheduleRefusal::NotHeld => 12,
        }
    }

    // The cell that a refusal names, 0 where it is tied to none.
    pub fn cell(self) -> u32
        ensures { result ≡ schedule_refusal_cell self }
    {
        match self {
            ScheduleRefusal::Row(refusal) => refusal.cell(),
            ScheduleRefusal::NoRoom => 0,
            ScheduleRefusal::NotHeld => 0,
        }
    }
}

impl From<Refusal> for ScheduleRefusal {
    ghost from_gives = { λ row e. e ≡ Row row };

    fn from(row: Refusal) -> ScheduleRefusal {
        ScheduleRefusal::Row(row)
    }
}
