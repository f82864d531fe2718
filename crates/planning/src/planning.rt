ghost use Rattle.std.specs.Prelude.{◌≡◌, ◌≤◌, map, length};
ghost use Rattle.records.specs.Bare.{bare};
ghost use Rattle.planning.specs.Planned.{told_plan, planned_of, PlannedMeans};

use crate::closing::plan_windows;
use arrayvec::ArrayVec;
use lists::Front;
use records::limits::MOST_RECORDS;
use records::{NarrowingFault, Record, Window, check};

// A day for each record.
pub type Days = Front<MOST_RECORDS>;

// The windows of the records, as a new list. (`copy_windows` of records writes the front of a list that is there, and leaves the rest.)
fn windows_of<R: Record>(records: &[R]) -> ArrayVec<Window, MOST_RECORDS>
    requires { length records.now ≤ 512 }
    ensures { result.items ≡ map bare (map R.span records.now) }
{
    let mut windows = ArrayVec::new();
    for each in records {
        windows.push(each.window().into());
    }
    windows
}

// The first plan: a day for each record; none where there is no plan. The days are given as to the narrowing: the first, and the pairs.
pub fn first_plan<R: Record>(
    first: u16,
    pairs: &[(u16, u16)],
    records: &[R],
) -> Result<Option<Days>, NarrowingFault>
    ensures answer { told_plan result ≡ planned_of first pairs.now (map R.span records.now) }
    ensures means { PlannedMeans first pairs.now (map R.span records.now) (told_plan result) }
{
    check(first, pairs, records, pairs.len())?;
    let mut windows = windows_of(records);
    Ok(plan_windows(first, pairs, windows.as_mut_slice()))
}
