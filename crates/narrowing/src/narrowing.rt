// The narrowing: each record is put into the window from the smallest to the largest day that a plan gives it.
ghost use Rattle.std.specs.Prelude.{◌≡◌, ◌≤◌, map, length, take, Ok};
ghost use Rattle.plans.specs.Needs.{Within, Proper};
ghost use Rattle.plans.specs.Narrowing.{narrowed};
ghost use Rattle.narrowing.specs.Weighing.{Planned};
ghost use Rattle.narrowing.specs.Verdict.{verdict_of, MarksAfter};
ghost use Rattle.narrowing.specs.Narrow.{placed, narrow_of, Narrowest};
ghost use Rattle.narrowing.specs.Scanning.{found, AtHand, Shorter};

use crate::counting::places;
use crate::days::Days;
use crate::judging::judge;
use crate::right::needs_right;
use crate::scans::{highs, lows};
use crate::tables::Tables;
use crate::tight::tight_ends;
use records::limits::{CELLS, EDGES, MOST_DAYS};
use records::{NarrowingFault, Record, check};

// The window that the table gives for a window.
fn window_in(day: u16, table: &[u8; CELLS], window: (u16, u16)) -> (u16, u16)
    requires { AtHand day table.now window }
    ensures { result ≡ found day table.now window }
{
    let (a, b) = places(day, window);
    (
        day + table[b * MOST_DAYS + a] as u16,
        day + table[a * MOST_DAYS + b] as u16,
    )
}

// Puts each record into the window that the table gives for its own.
fn put_windows<R: Record>(day: u16, table: &[u8; CELLS], records: &mut [R])
    requires within { Within day 128 (map R.span records.old) }
    requires shorter { Shorter day table.now (map R.span records.old) }
    ensures { records.new ≡ placed R.put (map (found day table.now) (map R.span records.old)) records.old }
{
    for each in records.iter_mut() {
        let (first, last) = window_in(day, table, each.window());
        each.set_window(first, last);
    }
}

// Narrows where there is a plan, by the tables of the verdict.
fn narrow_counted<R: Record>(days: &Days, tables: &Tables, records: &mut [R])
    requires records_len_bound { length records.old ≤ 512 }
    requires proper { Proper days.now.first days.now.pairs.now (map R.span records.old) }
    requires planned { Planned days.now.first days.now.pairs.now (map R.span records.old) tables.now }
    ensures { records.new ≡ placed R.put (narrowed days.now.first days.now.pairs.now (map R.span records.old)) records.old }
{
    let mut right = [0u32; EDGES];
    needs_right(days, &tables.held, &mut right);
    let mut earliest = [0u16; EDGES];
    let mut latest = [0u16; EDGES];
    tight_ends(
        days,
        records.len() as u32,
        tables,
        &right,
        &mut earliest,
        &mut latest,
    );
    let mut ends = [0u8; CELLS];
    lows(days, &earliest, &mut ends);
    highs(days, &latest, &mut ends);
    put_windows(days.first, &ends, records);
}

// Puts each record into the window from the smallest to the largest day that a plan gives it; the rest of each record
// stays. Refused as the verdict is, with the same marks, and then no record changes.
pub fn narrow<R: Record>(
    first: u16,
    pairs: &[(u16, u16)],
    records: &mut [R],
    marks: &mut [u8],
) -> Result<(), NarrowingFault>
    ensures answer { result ≡ verdict_of first pairs.now (map R.span records.old) (length marks.old) (take (length pairs.now) marks.new) }
    ensures marks { MarksAfter first pairs.now (map R.span records.old) marks.old marks.new }
    ensures records { records.new ≡ narrow_of R.put first pairs.now (map R.span records.old) result records.old }
    ensures means { result ≡ Ok tt → Narrowest first pairs.now (map R.span records.old) (map R.span records.new) }
{
    check(first, pairs, records, marks.len())?;
    let mut tables = Tables::blank();
    let days = Days { first, pairs };
    judge(&days, records, marks, &mut tables)?;
    narrow_counted(&days, &tables, records);
    Ok(())
}
