// A set of days that shows a shortage, and its two counts.
ghost use Rattle.std.specs.Prelude.{◌≡◌, ℕ, ◌+◌, ◌*◌, ◌<◌, ◌≤◌, List, map, length, MatchOption, slice_index};
ghost use Rattle.plans.specs.Plans.{Window};
ghost use Rattle.plans.specs.Runs.{total};
ghost use Rattle.plans.specs.Sets.{Marks, meeting, needed};
ghost use Rattle.plans.specs.Needs.{Within};
ghost use Rattle.narrowing.specs.Counting.{tabled, Counted, NeedsOf, Shown};

use crate::counting::{places, row};
use crate::days::Days;
use crate::tables::Tables;
use records::Record;
use records::limits::EDGES;

// The first day whose need with its cell comes to the goal, where one does.
fn find_run(row: &[u16], left: &[u32], goal: u32) -> Option<usize>
    requires row_len { length row.now ≡ length left.now }
    ensures { MatchOption result ((p : ℕ) → p < length row.now → goal ≡ slice_index left.now p + slice_index row.now p → ⊥) (λ p. (p < length row.now) × (goal ≡ slice_index left.now p + slice_index row.now p)) }
{
    row.iter().zip(left).position(|(held, need)| goal.checked_sub(*need) == Some(*held as u32))
}

// Goes back from the last day by what makes each need so large, and marks the days whose fewest does.
pub(crate) fn mark_shortage(days: &Days, tables: &Tables, marks: &mut [u8])
    requires marks_len { length marks.old ≡ length days.now.pairs.now }
    requires needs_of { NeedsOf days.now.pairs.now tables.now.held tables.now.left }
    requires left_bound { (v : ℕ) → v ≤ length days.now.pairs.now → slice_index tables.now.left v ≤ v * 65535 }
    requires counted { (k : ℕ) × (ws : List Window) × Counted k (length days.now.pairs.now) ws tables.now.held }
    ensures marks { Marks (length days.now.pairs.now) marks.new }
    ensures shown { Shown days.now.pairs.now tables.now.held tables.now.left marks.new }
{
    marks.fill(0);
    let mut v = days.pairs.len();
    // A loop with a measure: it goes back by a day or by a whole run, and no list has its steps.
    while v > 0 {
        let day = v - 1;
        if tables.left[v] == tables.left[day] + days.pairs[day].0 as u32 {
            marks[day] = 1;
            v = day;
        } else {
            v = find_run(
                row(&tables.held, day),
                &tables.left[..day + 1],
                tables.left[v],
            )
            .unwrap();
        }
    }
}

// How many marks there are before each day. Not one with the sums of the mosts: those are of a half of each pair and in 32 bits, and a
// function of both would take a closure with its bound.
fn sum_marks(marks: &[u8], before: &mut [u16; EDGES])
    requires marks_len_bound { length marks.now ≤ 128 }
    ensures { (v : ℕ) → v ≤ length marks.now → slice_index before.new v ≡ total (tabled marks.now) v }
{
    before[0] = 0;
    for (v, mark) in marks.iter().enumerate() {
        before[v + 1] = before[v] + *mark as u16;
    }
}

// How many windows have a marked day.
pub(crate) fn count_meeting<R: Record>(day: u16, records: &[R], marks: &[u8]) -> u16
    requires records_len_bound { length records.now ≤ 512 }
    requires marks_len_bound { length marks.now ≤ 128 }
    requires marks { Marks (length marks.now) marks.now }
    requires within { Within day (length marks.now) (map R.span records.now) }
    ensures { result ≡ meeting day marks.now (map R.span records.now) }
{
    let mut before = [0u16; EDGES];
    sum_marks(marks, &mut before);
    let mut met: u16 = 0;
    // A loop: in a filter the closure would ask each window's bounds anew.
    for each in records {
        let (a, b) = places(day, each.window());
        if before[a] < before[b + 1] {
            met += 1;
        }
    }
    met
}

// The sum of the fewests of the marked days.
pub(crate) fn sum_needed(days: &Days, marks: &[u8]) -> u32
    requires { length marks.now ≡ length days.now.pairs.now }
    ensures { (k : ℕ) → result ≡ needed k marks.now days.now.pairs.now }
{
    let mut fewests: u32 = 0;
    for (pair, mark) in days.pairs.iter().zip(marks) {
        if *mark == 1 {
            fewests += pair.0 as u32;
        }
    }
    fewests
}
