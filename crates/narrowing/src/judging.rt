// The verdict.
ghost use Rattle.std.specs.Prelude.{◌≡◌, ◌≤◌, map, length, take, Ok};
ghost use Rattle.plans.specs.Needs.{Proper};
ghost use Rattle.plans.specs.Replies.{reply};
ghost use Rattle.records.specs.Checks.{checked};
ghost use Rattle.narrowing.specs.Counting.{Blank};
ghost use Rattle.narrowing.specs.Weighing.{Planned};
ghost use Rattle.narrowing.specs.Verdict.{told, Marked, verdict_of, MarksAfter, VerdictMeans};

use crate::days::Days;
use crate::runs::mark_run;
use crate::shortage::{count_meeting, mark_shortage, sum_needed};
use crate::tables::{Lack, Tables};
use records::limits::MOST_DAYS;
use records::{NarrowingFault, Record, check};

// The verdict past the checks, and the tables that it goes by.
pub(crate) fn judge<R: Record>(
    days: &Days,
    records: &[R],
    marks: &mut [u8],
    tables: &mut Tables,
) -> Result<(), NarrowingFault>
    requires records_len_bound { length records.now ≤ 512 }
    requires pairs_in_bounds { length days.now.pairs.now ≤ length marks.old }
    requires proper { Proper days.now.first days.now.pairs.now (map R.span records.now) }
    requires blank { Blank tables.old.held }
    ensures answer { result ≡ told (reply days.now.first days.now.pairs.now (map R.span records.now) (take (length days.now.pairs.now) marks.new)) }
    ensures marks { Marked days.now.first days.now.pairs.now (map R.span records.now) marks.old marks.new (reply days.now.first days.now.pairs.now (map R.span records.now) (take (length days.now.pairs.now) marks.new)) }
    ensures tables { result ≡ Ok tt → Planned days.now.first days.now.pairs.now (map R.span records.now) tables.new }
{
    let count = days.pairs.len();
    // A match: two of its arms write marks.
    match tables.weigh(days, records) {
        Ok(()) => Ok(()),
        Err(Lack::Room(begin, end)) => {
            mark_run(begin, end, &mut marks[..count]);
            Err(NarrowingFault::Overfull {
                windows: tables.held[end * MOST_DAYS + begin],
                mosts: tables.before[end + 1] - tables.before[begin],
            })
        }
        Err(Lack::Windows) => {
            mark_shortage(days, tables, &mut marks[..count]);
            Err(NarrowingFault::Short {
                windows: count_meeting(days.first, records, &marks[..count]),
                fewests: sum_needed(days, &marks[..count]),
            })
        }
    }
}

// Whether some plan gives each record a day of its window and each of the days, from day `first` on, at least its fewest
// and at most its most. Refused with 20 or 21, the marks of the days become 1 for the days of the set and 0 for the
// others; in every other case, and after the days, the marks stay.
pub fn verdict<R: Record>(
    first: u16,
    pairs: &[(u16, u16)],
    records: &[R],
    marks: &mut [u8],
) -> Result<(), NarrowingFault>
    ensures answer { result ≡ verdict_of first pairs.now (map R.span records.now) (length marks.old) (take (length pairs.now) marks.new) }
    ensures marks { MarksAfter first pairs.now (map R.span records.now) marks.old marks.new }
    ensures means { checked first pairs.now (map R.span records.now) (length marks.old) ≡ Ok tt → VerdictMeans first pairs.now (map R.span records.now) result }
{
    check(first, pairs, records, marks.len())?;
    let mut tables = Tables::blank();
    judge(&Days { first, pairs }, records, marks, &mut tables)
}
