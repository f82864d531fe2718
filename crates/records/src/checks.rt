// What is asked of the days, the pairs and the records, which come side by side, as public calls take them.
ghost use Rattle.std.specs.Prelude.{◌≡◌, ◌+◌, ◌≤◌, map, not, length};
ghost use Rattle.std.specs.List.{position};
ghost use Rattle.records.specs.Checks.{stands, past, range_check, pairs_check, number_check, windows_check, checked};

use crate::fault::NarrowingFault;
use crate::limits::{LAST_DAY, MOST_DAYS, MOST_RECORDS};
use crate::record::Record;
use pairs::first_bad_pair;

// Whether there are 1 to 128 days from the first on, none after the last of all, and a mark for each.
fn check_range(first: u16, days: usize, marks: usize) -> Result<(), NarrowingFault>
    ensures { result ≡ range_check first days marks }
{
    if days == 0 || days > MOST_DAYS || marks < days || usize::from(first) + days - 1 > LAST_DAY {
        return Err(NarrowingFault::BadRange);
    }
    Ok(())
}

// Whether each day has a pair of a fewest and a most; the first that has none is told as the day itself.
fn check_pairs(first: u16, pairs: &[(u16, u16)]) -> Result<(), NarrowingFault>
    requires { first + length pairs.now ≤ 65536 }
    ensures { result ≡ pairs_check first pairs.now }
{
    // A match and no map_or: only of a place that was found is it known that the day after it is one. (There is no From from usize down, so
    // the day is a cast.)
    match first_bad_pair(pairs) {
        Some(place) => Err(NarrowingFault::BadPair(first + place as u16)),
        None => Ok(()),
    }
}

// Whether a window does not end before it begins, and all its days are of the `days` days from day `day` on. (Whoever asks this of one
// day writes the comparison out, which is as short as a call would be.)
fn lies_within(day: u16, days: usize, window: (u16, u16)) -> bool
    ensures { result ≡ stands day days window }
{
    let (first, last) = window;
    first <= last && day <= first && usize::from(last - day) < days
}

// The first place whose window does not.
fn first_bad_window<R: Record>(day: u16, days: usize, records: &[R]) -> Option<usize>
    ensures { result ≡ position (λ w. not (stands day days w)) (map R.span records.now) }
{
    records
        .iter()
        .map(|each| each.window())
        .position(|window| !lies_within(day, days, window))
}

// First how many records there are, then their windows.
fn check_records<R: Record>(first: u16, days: usize, records: &[R]) -> Result<(), NarrowingFault>
    ensures { result ≡ past (number_check (map R.span records.now)) (windows_check first days (map R.span records.now)) }
{
    if records.len() > MOST_RECORDS {
        return Err(NarrowingFault::TooManyRecords);
    }
    first_bad_window(first, days, records).map_or(
        Ok(()),
        |place| Err(NarrowingFault::BadWindow(place)),
    )
}

// The checks in their order.
pub fn check<R: Record>(
    first: u16,
    pairs: &[(u16, u16)],
    records: &[R],
    marks: usize,
) -> Result<(), NarrowingFault>
    ensures { result ≡ checked first pairs.now (map R.span records.now) marks }
{
    check_range(first, pairs.len(), marks)?;
    check_pairs(first, pairs)?;
    check_records(first, pairs.len(), records)
}
