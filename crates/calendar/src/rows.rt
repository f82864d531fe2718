ghost use Rattle.std.specs.Prelude.{◌≡◌};
ghost use Rattle.calendar.specs.Checks.{rows_check};

use crate::fault::CalendarFault;
use pairs::first_bad_pair;

// Whether each row is a pair of a fewest and a most.
pub(crate) fn check_rows(rows: &[(u16, u16)]) -> Result<(), CalendarFault>
    ensures { result ≡ rows_check rows.now }
{
    first_bad_pair(rows).map_or(Ok(()), |row| Err(CalendarFault::BadRow(row)))
}
