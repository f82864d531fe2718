// Tight runs: for each end the earliest begin of one, and for each begin the latest end. A run from first day p to last
// day v ends at v + 1.
ghost use Rattle.std.specs.Prelude.{◌≡◌, ℕ, ◌<◌, ◌≤◌, false, length, if◌then◌else◌, slice_index};
ghost use Rattle.narrowing.specs.Counting.{Blank, Summed};
ghost use Rattle.narrowing.specs.Scanning.{NeedsMeet, EarliestOf, LatestOf};

use crate::counting::row;
use crate::days::Days;
use crate::tables::Tables;
use records::limits::EDGES;

// The runs with one last day, by their first days: how many windows each holds, and the mosts and the need of the days before
// it. The mosts up to the last day are `top` in all, and `rest` are the windows that the days after it do not need.
// Three lists of one length, each a part of a table: side by side, so that the loop over them is one of single numbers.
#[derive(Clone, Copy)]
struct Runs<'a> {
    held: &'a [u16],
    before: &'a [u32],
    left: &'a [u32],
    top: u32,
    rest: u32,
    ghost one_len: { (length held.now ≡ length before.now) × (length held.now ≡ length left.now) },
    ghost before_bound: { (p : ℕ) → p < length held.now → slice_index before.now p ≤ top },
    ghost left_bound: { (p : ℕ) → p < length held.now → slice_index left.now p < 2147483648 },
}

impl Runs<'_> {
    ghost use Rattle.narrowing.specs.Tight.{tight_at, FirstTight};

    // What a run holds is all its room, or comes with the need before it to all that the days after leave.
    fn is_tight(&self, p: usize) -> bool
        requires { p < length self.now.held.now }
        ensures { result ≡ tight_at self.now p }
    {
        let held = self.held[p] as u32;
        (held == self.top - self.before[p]) | (self.left[p] + held == self.rest)
    }

    // Writes the end of the runs wherever one is tight, and says whether one is.
    fn mark(&self, end: u16, latest: &mut [u16]) -> bool
        requires { length latest.old ≡ length self.now.held.now }
        ensures none { result ≡ false → (p : ℕ) → p < length self.now.held.now → tight_at self.now p ≡ false }
        ensures marks { (p : ℕ) → p < length self.now.held.now → slice_index latest.new p ≡ (if tight_at self.now p then end else slice_index latest.old p) }
    {
        let mut seen = false;
        for (p, last) in latest.iter_mut().enumerate() {
            let tight = self.is_tight(p);
            // A choice: with a branch the loop takes 1.9 times the time.
            *last = if tight { end } else { *last };
            seen |= tight;
        }
        seen
    }

    // The first day of the first tight run.
    fn first_tight(&self) -> Option<usize>
        ensures { FirstTight self.now result }
    {
        (0..self.held.len()).find(|p| self.is_tight(*p))
    }

    // Both; most rows have no tight run, and are gone through once.
    fn mark_and_find(&self, end: u16, latest: &mut [u16]) -> Option<usize>
        requires { length latest.old ≡ length self.now.held.now }
        ensures first { FirstTight self.now result }
        ensures marks { (p : ℕ) → p < length self.now.held.now → slice_index latest.new p ≡ (if tight_at self.now p then end else slice_index latest.old p) }
    {
        if self.mark(end, latest) {
            self.first_tight()
        } else {
            None
        }
    }
}

// The earliest begins and the latest ends of tight runs, of `windows` windows in all.
pub(crate) fn tight_ends(
    days: &Days,
    windows: u32,
    tables: &Tables,
    right: &[u32; EDGES],
    earliest: &mut [u16; EDGES],
    latest: &mut [u16; EDGES],
)
    requires windows_bound { windows ≤ 512 }
    requires summed { Summed days.now.pairs.now tables.now.before }
    requires needs_meet { NeedsMeet (length days.now.pairs.now) tables.now.left right.now windows }
    requires blank { Blank latest.old }
    ensures early { EarliestOf days.now.pairs.now tables.now.held tables.now.left right.now windows earliest.new }
    ensures late { LatestOf days.now.pairs.now tables.now.held tables.now.left right.now windows latest.new }
{
    // By the day, which has a place in five lists.
    for v in 0..days.pairs.len() {
        let end = v as u16 + 1;
        let runs = Runs {
            held: row(&tables.held, v),
            before: &tables.before[..v + 1],
            left: &tables.left[..v + 1],
            top: tables.before[v + 1],
            rest: windows - right[v + 1],
        };
        earliest[v + 1] = runs
            .mark_and_find(end, &mut latest[..v + 1])
            .map_or(end, |p| p as u16);
    }
}
