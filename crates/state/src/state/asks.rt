// The questions: they change nothing.
ghost use Rattle.std.specs.Prelude.{◌≡◌, [], length};
ghost use Rattle.ledger.specs.Ledger.{weigh as weigh_ledger};
ghost use Rattle.ledger.specs.Calls.{Call};
ghost use Rattle.ledger.specs.Replies.{reply};
ghost use Rattle.state.specs.Answers.{window_reply, probe_reply, plan_reply, Lists};
ghost use Rattle.state.specs.Model.{ledger_of};
ghost use Rattle.state.specs.Weights.{quiet, refusal_in, Told, Planned};

use super::State;
use crate::HORIZON;
use calendar::Calendar;
use faults::BookFault;
use planning::Days;

impl State {
    // The same state, its orders told their days; refused where there is no plan.
    fn weighed<C: Calendar>(&self, calendar: &C, subject: u16) -> Result<State, BookFault>
        ensures refusal { refusal_in result ≡ quiet subject (weigh_ledger (C.told calendar.now) (ledger_of self.now) []) }
        ensures told { Told (C.told calendar.now) (ledger_of self.now) result }
    {
        let mut told = *self;
        let mut marks = [0; HORIZON];
        told.weigh(calendar, &mut marks)
            .map_err(|fault| BookFault::about(subject, fault))?;
        Ok(told)
    }

    // The first and the last day of an order in any plan.
    pub fn window<C: Calendar>(&self, calendar: &C, number: u16) -> Result<(u16, u16), BookFault>
        ensures { window_reply result ≡ reply (C.told calendar.now) (ledger_of self.now) (Call.window number) [] }
    {
        self.check_window(number)
            .map_err(|check| BookFault::about(number, check))?;
        let told = self.weighed(calendar, number)?;
        Ok(told.table.told(number).unwrap())
    }

    // Whether some plan gives an order a day.
    pub fn probe<C: Calendar>(&self, calendar: &C, number: u16, day: u16) -> Result<bool, BookFault>
        ensures { probe_reply result ≡ reply (C.told calendar.now) (ledger_of self.now) (Call.probe number day) [] }
    {
        let place = self
            .check_probe(number, day)
            .map_err(|check| BookFault::about(number, check))?;
        self.weighed(calendar, number)?;
        let pairs = self.pairs(calendar);
        Ok(self.table.supports(self.today, &pairs, place, day).unwrap())
    }

    // The days of the first plan.
    pub(crate) fn planned<C: Calendar>(&self, calendar: &C, subject: u16) -> Result<Days, BookFault>
        ensures refusal { refusal_in result ≡ quiet subject (weigh_ledger (C.told calendar.now) (ledger_of self.now) []) }
        ensures planned { Planned (C.told calendar.now) (ledger_of self.now) result }
    {
        self.weighed(calendar, subject)?;
        let pairs = self.pairs(calendar);
        let plan = self.table.plan(self.today, &pairs).unwrap();
        Ok(plan.unwrap())
    }

    // Writes a day for each held order: of all plans the one whose list of days comes first. Tells how many days.
    pub fn plan<C: Calendar>(&self, calendar: &C, list: &mut [u16]) -> Result<usize, BookFault>
        ensures { Lists (C.told calendar.now) (ledger_of self.now) (Call.plan (length list.old)) result (plan_reply result list.new) list.old list.new }
    {
        self.check_plan(list.len())
            .map_err(|check| BookFault::about(self.today, check))?;
        let days = self.planned(calendar, self.today)?;
        let days = days.as_slice();
        list[..days.len()].copy_from_slice(days);
        Ok(days.len())
    }
}
