// The need from the left: how many the days before each day have at least.
ghost use Rattle.std.specs.Prelude.{◌≡◌, ℕ, ◌*◌, ◌<◌, ◌≤◌, length, slice_index};
ghost use Rattle.narrowing.specs.Counting.{Reach, NeedsOf};

use crate::counting::row;
use crate::days::Days;
use records::limits::{CELLS, EDGES};

// The largest of the start and of each need with its cell.
fn reach(row: &[u16], needs: &[u32], start: u32) -> u32
    requires row_len { length row.now ≡ length needs.now }
    requires small { (p : ℕ) → p < length row.now → slice_index needs.now p < 2147483648 }
    ensures { Reach row.now needs.now start (length row.now) result }
{
    let mut largest = start;
    for (held, need) in row.iter().zip(needs) {
        largest = largest.max(*need + *held as u32);
    }
    largest
}

// What the days before each day need: the day's fewest more, or what a run that ends there holds.
// From the left each need is read off earlier ones, from the right a row lifts all before it: two loops.
pub(crate) fn needs_left(days: &Days, table: &[u16; CELLS], left: &mut [u32; EDGES])
    ensures needs { NeedsOf days.now.pairs.now table.now left.new }
    ensures small { (v : ℕ) → v ≤ length days.now.pairs.now → slice_index left.new v ≤ v * 65535 }
{
    left[0] = 0;
    for (v, pair) in days.pairs.iter().enumerate() {
        let start = left[v] + pair.0 as u32;
        left[v + 1] = reach(row(table, v), &left[..v + 1], start);
    }
}
