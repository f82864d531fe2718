// The overfull run with the smallest last day and, among those, the largest first day; and its marks.
ghost use Rattle.std.specs.Prelude.{◌≡◌, ℕ, suc, ◌+◌, ◌-◌, ◌*◌, ◌<◌, ◌≤◌, length, MatchOption, slice_index};
ghost use Rattle.plans.specs.Sets.{run_marks};
ghost use Rattle.narrowing.specs.Counting.{Summed, Fits, Found};

use crate::counting::row;
use crate::days::Days;
use records::limits::{CELLS, EDGES};

// The sums of the mosts before each day.
pub(crate) fn sum_mosts(days: &Days, before: &mut [u32; EDGES])
    ensures { Summed days.now.pairs.now before.new }
{
    before[0] = 0;
    for (v, pair) in days.pairs.iter().enumerate() {
        before[v + 1] = before[v] + pair.1 as u32;
    }
}

// The largest first day whose cell is above what is left of the mosts, `top` in all.
fn last_over(row: &[u16], before: &[u32], top: u32) -> Option<usize>
    requires row_len { length row.now ≡ length before.now }
    requires before_bound { (p : ℕ) → p < length row.now → slice_index before.now p ≤ top }
    ensures { MatchOption result (Fits row.now before.now top 0) (λ p. (p < length row.now) × (top - slice_index before.now p < slice_index row.now p) × Fits row.now before.now top (suc p)) }
{
    // An index loop: a chain of zip and rposition takes 4.3 times the time of this one.
    for p in (0..row.len()).rev() {
        if row[p] as u32 > top - before[p] {
            return Some(p);
        }
    }
    None
}

// The overfull run that 20 names, as its first and its last day.
pub(crate) fn overfull(
    days: &Days,
    table: &[u16; CELLS],
    before: &[u32; EDGES],
) -> Option<(usize, usize)>
    requires { Summed days.now.pairs.now before.now }
    ensures { Found days.now.pairs.now table.now result }
{
    // A loop over the last days, which have a row, two sums and a place in the answer: in find_map the proof has to follow std's range
    // to show that last_over may be called, and that did not close.
    for last in 0..days.pairs.len() {
        if let Some(first) = last_over(row(table, last), &before[..last + 1], before[last + 1]) {
            return Some((first, last));
        }
    }
    None
}

// Marks the days of a run, and no other day.
pub(crate) fn mark_run(first: usize, last: usize, marks: &mut [u8])
    requires first_le_last { first ≤ last }
    requires last_in_bounds { last < length marks.old }
    ensures { (k : ℕ) → marks.new ≡ run_marks k (length marks.old) (k + first, k + last) }
{
    marks.fill(0);
    marks[first..last + 1].fill(1);
}
