// How many windows lie inside each run of days. The table has a row for each last day and in it a cell for each first day,
// both counted from `day`, the first of the range.
ghost use Rattle.std.specs.Prelude.{◌≡◌, ℕ, ◌+◌, ◌-◌, ◌*◌, ◌<◌, ◌≤◌, map, length, drop, sum, slice_index};
ghost use Rattle.plans.specs.Needs.{Within};
ghost use Rattle.narrowing.specs.Counting.{Blank, Tallied, Counted};

use crate::days::Days;
use records::Record;
use records::limits::{CELLS, MOST_DAYS};

// The row of a last day, as far as the run of that day alone.
pub(crate) fn row(table: &[u16; CELLS], last: usize) -> &[u16]
    requires { last < 128 }
    ensures long { length result.now ≡ last + 1 }
    ensures cells { (p : ℕ) → p ≤ last → slice_index result.now p ≡ slice_index table.now (last * 128 + p) }
{
    &table[last * MOST_DAYS..last * MOST_DAYS + last + 1]
}

// The first and the last day of a window, counted from the first day of the range.
pub(crate) fn places(day: u16, window: (u16, u16)) -> (usize, usize)
    requires begins { day ≤ window.0 }
    requires ordered { window.0 ≤ window.1 }
    requires ends { window.1 < day + 128 }
    ensures at { result ≡ (window.0 - day, window.1 - day) }
    ensures within { (result.0 ≤ result.1) × (result.1 < 128) }
{
    let (first, last) = window;
    ((first - day) as usize, (last - day) as usize)
}

// Counts the windows by their first and last day.
fn tally<R: Record>(day: u16, records: &[R], table: &mut [u16; CELLS])
    requires records_len_bound { length records.now ≤ 512 }
    requires within { Within day 128 (map R.span records.now) }
    requires blank { Blank table.old }
    ensures { Tallied day (map R.span records.now) table.new }
{
    for each in records {
        let (a, b) = places(day, each.window());
        table[b * MOST_DAYS + a] += 1;
    }
}

// Sums a row from its end, and adds to it what the rows before came to.
fn add_row(row: &mut [u16], sums: &mut [u16])
    requires row_len { length row.old ≡ length sums.old }
    requires fits { (p : ℕ) → p < length row.old → slice_index sums.old p + sum (drop p row.old) < 65536 }
    ensures row { (p : ℕ) → p < length row.old → slice_index row.new p ≡ slice_index sums.old p + sum (drop p row.old) }
    ensures sums { (p : ℕ) → p < length row.old → slice_index sums.new p ≡ slice_index sums.old p + sum (drop p row.old) }
{
    let mut run: u16 = 0;
    // An index loop: a zip of the two, gone through from the end, takes 2.6 times the time of this one.
    for p in (0..row.len()).rev() {
        run += row[p];
        let all = sums[p] + run;
        sums[p] = all;
        row[p] = all;
    }
}

// Each cell becomes how many windows lie inside the run from its first to its last day.
pub(crate) fn count_runs<R: Record>(days: &Days, records: &[R], table: &mut [u16; CELLS])
    requires records_len_bound { length records.now ≤ 512 }
    requires within { Within days.now.first (length days.now.pairs.now) (map R.span records.now) }
    requires blank { Blank table.old }
    ensures { Counted days.now.first (length days.now.pairs.now) (map R.span records.now) table.new }
{
    tally(days.first, records, table);
    let mut sums = [0u16; MOST_DAYS];
    // By its number: the row of a last day and the sums both end at it.
    for last in 0..days.pairs.len() {
        add_row(
            &mut table[last * MOST_DAYS..last * MOST_DAYS + last + 1],
            &mut sums[..last + 1],
        );
    }
}
