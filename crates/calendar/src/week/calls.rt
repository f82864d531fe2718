ghost use Rattle.std.specs.Prelude.{◌≡◌, ℕ, Ok};
ghost use Rattle.calendar.specs.Asked.{AsWeekly};
ghost use Rattle.calendar.specs.Checks.{weekly_check, kept, kept_week};
ghost use Rattle.calendar.specs.Pairs.{weekly, weekday_on};
ghost use Rattle.pairs.specs.Sound.{sound_at};
ghost use Rattle.calendar.specs.Told.{weekly_told, week_of};

use super::Weekly;
use crate::fault::CalendarFault;
use crate::rows::check_rows;
use crate::{Calendar, table};

impl Weekly {
    // Whether seven pairs and the weekday of day 0 can be a calendar.
    pub fn check(rows: &[(u16, u16); 7], start: u16) -> Result<(), CalendarFault>
        ensures { result ≡ weekly_check rows.now start }
    {
        if start > 6 {
            return Err(CalendarFault::NoWeekday);
        }
        check_rows(rows)
    }

    // The calendar of a week; of one that the check refuses, (0, 0) on every day.
    pub fn new(rows: [(u16, u16); 7], start: u16) -> Weekly
        ensures week { week_of result ≡ kept_week (weekly_check rows start) (start, rows) }
        ensures pairs { (t : ℕ) → weekly_told result t ≡ kept (weekly_check rows start) (weekly rows start) t }
        ensures asked { weekly_check rows start ≡ Ok tt → AsWeekly rows start (weekly_told result) }
    {
        let Ok(()) = Weekly::check(&rows, start) else {
            return Weekly {
                rows: [(0, 0); 7],
                start: 0,
            };
        };
        Weekly { rows, start }
    }

    // The weekday of a day, 0 to 6.
    pub fn weekday(&self, day: u16) -> u8
        ensures { result ≡ weekday_on self.now.start day }
    {
        table::weekday(self.start, day)
    }
}

impl Calendar for Weekly {
    ghost told = { weekly_told };

    ghost sound = { λ c t _. sound_at c.rows c.sound (weekday_on c.start t) };

    fn pair(&self, day: u16) -> (u16, u16) {
        self.rows[usize::from(self.weekday(day))]
    }
}
