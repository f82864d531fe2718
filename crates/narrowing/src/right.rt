// The need from the right: how many each day and the days after it have at least.
ghost use Rattle.std.specs.Prelude.{◌≡◌, ℕ, ◌+◌, ◌<◌, ◌≤◌, max, length, slice_index};
ghost use Rattle.narrowing.specs.Counting.{Blank};
ghost use Rattle.narrowing.specs.Scanning.{RightNeedsOf};

use crate::counting::row;
use crate::days::Days;
use records::limits::{CELLS, EDGES};

// Each need becomes the larger of itself and its cell with the need after the row's last day.
fn lift(row: &[u16], after: u32, needs: &mut [u32])
    requires row_len { length row.now ≡ length needs.old }
    requires after_bound { after < 2147483648 }
    ensures { (p : ℕ) → p < length row.now → slice_index needs.new p ≡ max (slice_index needs.old p) (slice_index row.now p + after) }
{
    // The row by index: of what is written through a zip with iter_mut a proof knows only the length.
    for (p, need) in needs.iter_mut().enumerate() {
        *need = (*need).max(row[p] as u32 + after);
    }
}

// What each day and the days after it need: its fewest more, or what a run that begins there holds.
// From the left each need is read off earlier ones, from the right a row lifts all before it: two loops.
pub(crate) fn needs_right(days: &Days, table: &[u16; CELLS], right: &mut [u32; EDGES])
    requires { Blank right.old }
    ensures { RightNeedsOf days.now.pairs.now table.now right.new }
{
    // By the day, which names the row and the needs as well as the pair.
    for v in (0..days.pairs.len()).rev() {
        let after = right[v + 1];
        lift(row(table, v), after, &mut right[..v + 1]);
        right[v] = right[v].max(days.pairs[v].0 as u32 + after);
    }
}
