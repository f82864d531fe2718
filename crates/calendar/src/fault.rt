ghost use Rattle.calendar.specs.Faults.{number_of, place_of, layer_of};

use refusals::Fault;

// Why a check refuses.
#[derive(Clone, Copy, PartialEq, Eq, Debug)]
pub enum CalendarFault {
    // the weekday of day 0 is above 6
    NoWeekday,
    // a list has more than 65,536 pairs
    TooManyPairs,
    // the first row whose fewest is above its most, or whose most is above 512
    BadRow(usize),
    // the first run that ends before it begins
    BadRun(usize),
    // there are more than 16 runs
    TooManyRuns,
}

impl Fault for CalendarFault {
    ghost numbered = { number_of };

    ghost placed = { place_of };

    ghost lettered = { layer_of };

    fn number(self) -> u16 {
        match self {
            CalendarFault::NoWeekday => 40,
            CalendarFault::TooManyPairs => 40,
            CalendarFault::BadRow(_) => 41,
            CalendarFault::BadRun(_) => 42,
            CalendarFault::TooManyRuns => 43,
        }
    }

    // The row or run that it names.
    fn place(self) -> Option<usize> {
        match self {
            CalendarFault::BadRow(row) => Some(row),
            CalendarFault::BadRun(run) => Some(run),
            _ => None,
        }
    }

    fn layer(self) -> char {
        'C'
    }
}
