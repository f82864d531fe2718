ghost use Rattle.std.specs.Prelude.{◌≡◌, ◌<◌};
ghost use Rattle.calendar.specs.Pairs.{weekday_on};

// The weekday of a day: the row is the weekday of day 0, the column is the day mod 7.
const WEEKDAYS: [[u8; 7]; 7] = [
    [0, 1, 2, 3, 4, 5, 6],
    [1, 2, 3, 4, 5, 6, 0],
    [2, 3, 4, 5, 6, 0, 1],
    [3, 4, 5, 6, 0, 1, 2],
    [4, 5, 6, 0, 1, 2, 3],
    [5, 6, 0, 1, 2, 3, 4],
    [6, 0, 1, 2, 3, 4, 5],
];

// The weekday of a day, where day 0 has the weekday `start`.
pub(crate) fn weekday(start: u16, day: u16) -> u8
    requires { start < 7 }
    ensures { result ≡ weekday_on start day }
{
    WEEKDAYS[usize::from(start)][usize::from(day % 7)]
}
