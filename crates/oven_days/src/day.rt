ghost use Rattle.std.specs.Prelude.{◌≡◌};
ghost use Rattle.oven_days.specs.Days.{shown_day};

use calendar::{Calendar, Closing, Weekly};
use std::fmt;

// What a baker wants to know of a day.
#[derive(Clone, Copy)]
pub struct Day {
    number: u16,
    weekday: u8,
    fewest: u16,
    most: u16,
    closed: bool,
}

// A day of the calendar.
pub fn day_of(calendar: &Closing<Weekly>, number: u16) -> Day
    ensures { result ≡ shown_day calendar.now number }
{
    let (fewest, most) = calendar.pair(number);
    Day {
        number,
        weekday: calendar.below().weekday(number),
        fewest,
        most,
        closed: calendar.closes(number),
    }
}

impl fmt::Display for Day {
    fn fmt<W: fmt::Write>(&self, f: &mut fmt::Formatter<W>) -> fmt::Result {
        let Day {
            number,
            weekday,
            fewest,
            most,
            closed,
        } = *self;
        let closed = if closed { "yes" } else { "no" };
        write!(
            f,
            "{number:>3} {weekday:>7} {fewest:>6} {most:>4} {closed:>6}"
        )
    }
}
