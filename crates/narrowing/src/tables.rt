// The tables that the verdict, the narrowing and the support question go by, and what they say of windows and days.
ghost use Rattle.std.specs.Prelude.{◌≡◌, ◌≤◌, map, length};
ghost use Rattle.plans.specs.Needs.{Proper};
ghost use Rattle.narrowing.specs.Counting.{Blank};
ghost use Rattle.narrowing.specs.Weighing.{Weighed};

use crate::counting::count_runs;
use crate::days::Days;
use crate::needs::needs_left;
use crate::runs::{overfull, sum_mosts};
use records::Record;
use records::limits::{CELLS, EDGES};

// How many windows lie inside each run of days, the sums of the mosts before each day, and the need of the days before it.
// What reads only some of them takes those one by one: the others are not filled in yet, or not read.
#[derive(Drop)]
pub(crate) struct Tables {
    pub(crate) held: [u16; CELLS],
    pub(crate) before: [u32; EDGES],
    pub(crate) left: [u32; EDGES],
}

// What there is no plan for lack of.
#[derive(Clone, Copy)]
pub(crate) enum Lack {
    // room: more windows lie inside the run from the first to the last day than its mosts add up to
    Room(usize, usize),
    // windows: all days need more than there are
    Windows,
}

impl Tables {
    // Zeros.
    pub(crate) fn blank() -> Tables
        ensures { Blank result.held }
    {
        Tables {
            held: [0; CELLS],
            before: [0; EDGES],
            left: [0; EDGES],
        }
    }

    // Fills the tables in, and says whether there is a plan.
    pub(crate) fn weigh<R: Record>(&mut self, days: &Days, records: &[R]) -> Result<(), Lack>
        requires records_len_bound { length records.now ≤ 512 }
        requires proper { Proper days.now.first days.now.pairs.now (map R.span records.now) }
        requires blank { Blank self.old.held }
        ensures { Weighed days.now.first days.now.pairs.now (map R.span records.now) self.new result }
    {
        count_runs(days, records, &mut self.held);
        sum_mosts(days, &mut self.before);
        if let Some((begin, end)) = overfull(days, &self.held, &self.before) {
            return Err(Lack::Room(begin, end));
        }
        needs_left(days, &self.held, &mut self.left);
        if self.left[days.pairs.len()] as usize > records.len() {
            return Err(Lack::Windows);
        }
        Ok(())
    }
}
