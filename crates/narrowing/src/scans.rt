// The lowest and the highest day of each window, by its first and its last day. One table has both: row b has the lowest
// day for each first day up to b, and row a the highest for each last day from a on.
ghost use Rattle.std.specs.Prelude.{◌≡◌, ℕ, ◌+◌, ◌*◌, ◌<◌, length, slice_index};
ghost use Rattle.narrowing.specs.Scanning.{Stepped, Lows, Highs};

use crate::days::Days;
use records::limits::{CELLS, EDGES, MOST_DAYS};

// The windows end one day later or begin one day earlier: where the test takes the day that a window has so far, it has the
// new day.
fn step<F: Fn(u8) -> bool>(day: u8, found: &mut [u8], row: &mut [u8], takes: F)
    requires row_len { length found.old ≡ length row.old }
    requires callable { F.IsAlwaysCallable takes }
    ensures found { (i : ℕ) → i < length found.old → Stepped (F.post takes) day (slice_index found.old i) (slice_index found.new i) }
    ensures row { (i : ℕ) → i < length found.old → slice_index row.new i ≡ slice_index found.new i }
{
    // The row by index: of what is written through a zip with iter_mut a proof knows only the length.
    for (i, each) in found.iter_mut().enumerate() {
        *each = if takes(*each) { day } else { *each };
        row[i] = *each;
    }
}

// Writes the lowest days. A tight run that has the lowest day and ends just before the last day makes that one the lowest.
pub(crate) fn lows(days: &Days, earliest: &[u16; EDGES], table: &mut [u8; CELLS])
    ensures { Lows (length days.now.pairs.now) earliest.now table.new }
{
    let mut low = [0u8; MOST_DAYS];
    for b in 0..days.pairs.len() {
        low[b] = b as u8;
        // The row is cut out by index: of what is written through chunks_exact_mut a proof knows only the length, and a row copied
        // from the list at once takes 1.4 times the time.
        let early = earliest[b];
        step(
            b as u8,
            &mut low[..b + 1],
            &mut table[b * MOST_DAYS..b * MOST_DAYS + b + 1],
            |day| early <= day as u16,
        );
    }
}

// Writes the highest days; before the diagonal the table stays. A tight run that has the highest day and begins just after
// the first day makes that one the highest. A function of its own: its rows come from the last day back, and end where the
// days end.
pub(crate) fn highs(days: &Days, latest: &[u16; EDGES], table: &mut [u8; CELLS])
    ensures above { Highs (length days.now.pairs.now) latest.now table.new }
    ensures below { (a b : ℕ) → a < b → b < length days.now.pairs.now → slice_index table.new (b * 128 + a) ≡ slice_index table.old (b * 128 + a) }
{
    let mut high = [0u8; MOST_DAYS];
    // By the day, from the last one back: each row takes up what those of the later days found.
    for a in (0..days.pairs.len()).rev() {
        high[a] = a as u8;
        let late = latest[a + 1];
        step(
            a as u8,
            &mut high[a..days.pairs.len()],
            &mut table[a * MOST_DAYS + a..a * MOST_DAYS + days.pairs.len()],
            |day| (day as u16) < late,
        );
    }
}
