ghost use Rattle.std.specs.Prelude.{◌≡◌, ℕ, Ok};
ghost use Rattle.calendar.specs.Asked.{AsClosing};
ghost use Rattle.calendar.specs.Checks.{closing_check, kept_runs};
ghost use Rattle.calendar.specs.Pairs.{bad_run, in_runs, closed};
ghost use Rattle.calendar.specs.Sound.{sound_closed};
ghost use Rattle.calendar.specs.Told.{runs_of, below_of};

use super::Closing;
use crate::fault::CalendarFault;
use crate::{CLOSED_RUNS, Calendar};
use arrayvec::ArrayVec;

// The first run that ends before it begins.
fn first_bad_run(runs: &[(u16, u16)]) -> Option<usize>
    ensures { result ≡ bad_run runs.now }
{
    runs.iter().position(|&(first, last)| first > last)
}

// Whether a day lies in one of the runs.
fn covers(runs: &[(u16, u16)], day: u16) -> bool
    ensures { result ≡ in_runs runs.now day }
{
    runs.iter()
        .any(|&(first, last)| first <= day && day <= last)
}

impl<C> Closing<C> {
    // Whether runs can close days: few enough, and none that ends before it begins.
    pub fn check(runs: &[(u16, u16)]) -> Result<(), CalendarFault>
        ensures { result ≡ closing_check runs.now }
    {
        if runs.len() > CLOSED_RUNS {
            return Err(CalendarFault::TooManyRuns);
        }
        first_bad_run(runs).map_or(Ok(()), |run| Err(CalendarFault::BadRun(run)))
    }
}

impl<C: Calendar> Closing<C> {
    // The layer of runs on a calendar; of runs that the check refuses, a layer without runs.
    #[tactic(auto, using(crate::proofs::AsAsked::as_closing))]
    pub fn new(below: C, runs: &[(u16, u16)]) -> Closing<C>
        ensures below { below_of result ≡ below }
        ensures runs { runs_of result ≡ kept_runs (closing_check runs.now) runs.now }
        ensures asked { closing_check runs.now ≡ Ok tt → AsClosing runs.now (C.told below) (closed (runs_of result) (C.told (below_of result))) }
    {
        let mut kept = ArrayVec::new();
        if Closing::<C>::check(runs).is_ok() {
            kept.try_extend_from_slice(runs).unwrap();
        }
        Closing { below, runs: kept }
    }

    // The calendar under the layer.
    pub fn below(&self) -> &C
        ensures { result.now ≡ below_of self.now }
    {
        &self.below
    }

    // Whether a run of the layer closes a day.
    pub fn closes(&self, day: u16) -> bool
        ensures { result ≡ in_runs (runs_of self.now) day }
    {
        covers(self.runs.as_slice(), day)
    }
}

impl<C: Calendar> Calendar for Closing<C> {
    ghost told = { λ c. closed (runs_of c) (C.told (below_of c)) };

    ghost sound = { λ c t h. sound_closed (runs_of c) (C.told (below_of c)) t (C.sound c.below t h) };

    fn pair(&self, day: u16) -> (u16, u16) {
        if self.closes(day) {
            (0, 0)
        } else {
            self.below.pair(day)
        }
    }
}
