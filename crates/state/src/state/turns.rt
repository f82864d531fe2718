// The turn of a day.
ghost use Rattle.std.specs.Prelude.{◌≡◌, length};
ghost use Rattle.ledger.specs.Calls.{Call};
ghost use Rattle.ledger.specs.Replies.{ledger_after};
ghost use Rattle.state.specs.Answers.{turn_reply, Lists};
ghost use Rattle.state.specs.Model.{ledger_of};

use super::State;
use crate::HORIZON;
use calendar::Calendar;
use faults::BookFault;

impl State {
    // Lets out the orders that the first plan puts on today, writes their numbers and tells how many; then it is the next day.
    pub fn turn<C: Calendar>(&mut self, calendar: &C, list: &mut [u16]) -> Result<usize, BookFault>
        ensures told { Lists (C.told calendar.now) (ledger_of self.old) (Call.turn (length list.old)) result (turn_reply result list.new) list.old list.new }
        ensures ledger { ledger_of self.new ≡ ledger_after (C.told calendar.now) (ledger_of self.old) (Call.turn (length list.old)) }
    {
        self.check_turn(list.len())
            .map_err(|check| BookFault::about(self.today, check))?;
        let days = self.planned(calendar, self.today)?;
        let out = self
            .table
            .let_out(self.today, days.as_slice(), list)
            .unwrap();
        // the slot of today is that of the day that enters the horizon
        self.lit[usize::from(self.today) % HORIZON] = false;
        self.today += 1;
        Ok(out)
    }
}
