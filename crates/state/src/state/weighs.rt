// Whether a state has a plan.
ghost use Rattle.std.specs.Prelude.{◌≡◌, ◌+◌, ◌<◌, ◌≤◌, length, Ok};
ghost use Rattle.pairs.specs.Pairs.{Sound};
ghost use Rattle.plans.specs.Narrowing.{narrowed};
ghost use Rattle.ledger.specs.Ledger.{pair_on, pairs as ledger_pairs, windows, weigh as weigh_ledger};
ghost use Rattle.narrowing.specs.Verdict.{told, Marked};
ghost use Rattle.orders.specs.Tables.{told_in};
ghost use Rattle.state.specs.Answers.{horizon_marks};
ghost use Rattle.state.specs.Model.{ledger_of};

use super::State;
use crate::HORIZON;
use calendar::Calendar;
use records::NarrowingFault;
use std::array;

impl State {
    // The pair of a day: a lit day has the calendar's, an unlit one fewest 0.
    fn pair_on<C: Calendar>(&self, calendar: &C, at: usize) -> (u16, u16)
        requires { at < 56 }
        ensures value { result ≡ pair_on (C.told calendar.now) (ledger_of self.now) (self.now.today + at) }
        ensures sound { Sound result }
    {
        // `as`: no `From` goes from a usize to a u16
        let day = self.today + at as u16;
        let (fewest, most) = calendar.pair(day);
        if self.is_lit(day) {
            (fewest, most)
        } else {
            (0, most)
        }
    }

    // The pairs of the horizon.
    pub(crate) fn pairs<C: Calendar>(&self, calendar: &C) -> [(u16, u16); HORIZON]
        ensures { result ≡ ledger_pairs (C.told calendar.now) (ledger_of self.now) }
    {
        array::from_fn(|at| self.pair_on(calendar, at))
    }

    // Whether there is a plan; then each order is told its days. Where there is none, the marks of the horizon show why.
    pub(crate) fn weigh<C: Calendar>(
        &mut self,
        calendar: &C,
        marks: &mut [u8],
    ) -> Result<(), NarrowingFault>
        requires { 56 ≤ length marks.old }
        ensures answer { result ≡ told (weigh_ledger (C.told calendar.now) (ledger_of self.old) (horizon_marks marks.new)) }
        ensures marks { Marked self.old.today (ledger_pairs (C.told calendar.now) (ledger_of self.old)) (windows (ledger_of self.old)) marks.old marks.new (weigh_ledger (C.told calendar.now) (ledger_of self.old) (horizon_marks marks.new)) }
        ensures ledger { ledger_of self.new ≡ ledger_of self.old }
        ensures told { result ≡ Ok tt → told_in self.new.table ≡ narrowed self.old.today (ledger_pairs (C.told calendar.now) (ledger_of self.old)) (windows (ledger_of self.old)) }
    {
        let pairs = self.pairs(calendar);
        self.table.narrow(self.today, &pairs, marks)
    }
}
