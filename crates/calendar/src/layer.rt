ghost use Rattle.std.specs.Prelude.{◌≤◌, length};

use crate::CLOSED_RUNS;
use arrayvec::ArrayVec;

// Up to 16 closed runs of days on any calendar, each a first and a last day.
#[derive(Drop)]
pub struct Closing<C> {
    below: C,
    runs: ArrayVec<(u16, u16), CLOSED_RUNS>,
    // a contract sees the runs, and not that there is room for no more
    ghost few: { length runs.items ≤ 16 },
}

pub mod calls;
