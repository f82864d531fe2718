ghost use Rattle.std.specs.Prelude.{◌≡◌, ℕ, Ok};
ghost use Rattle.calendar.specs.Asked.{AsListed};
ghost use Rattle.calendar.specs.Checks.{listed_check, kept};
ghost use Rattle.calendar.specs.Pairs.{listed};
ghost use Rattle.pairs.specs.Sound.{sound_at};
ghost use Rattle.calendar.specs.Told.{listed_told};

use super::Listed;
use crate::fault::CalendarFault;
use crate::rows::check_rows;
use crate::{Calendar, LISTED_PAIRS};

impl<'a> Listed<'a> {
    // Whether a list can be a calendar.
    pub fn check(rows: &[(u16, u16)]) -> Result<(), CalendarFault>
        ensures { result ≡ listed_check rows.now }
    {
        if rows.len() > LISTED_PAIRS {
            return Err(CalendarFault::TooManyPairs);
        }
        check_rows(rows)
    }

    // The calendar of a list; of a list that the check refuses, (0, 0) on every day.
    pub fn new(rows: &'a [(u16, u16)]) -> Listed<'a>
        ensures pairs { (t : ℕ) → listed_told result t ≡ kept (listed_check rows.now) (listed rows.now) t }
        ensures asked { listed_check rows.now ≡ Ok tt → AsListed rows.now (listed_told result) }
    {
        let Ok(()) = Listed::check(rows) else {
            return Listed { rows: &[] };
        };
        Listed { rows }
    }
}

impl Calendar for Listed<'_> {
    ghost told = { listed_told };

    ghost sound = { λ c t _. sound_at c.rows.now c.sound t };

    fn pair(&self, day: u16) -> (u16, u16) {
        self.rows.get(usize::from(day)).copied().unwrap_or((0, 0))
    }
}
