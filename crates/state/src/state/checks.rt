// The checks of each call, in their order. What a call is given they are given side by side, as the rules give it to the call.
ghost use Rattle.std.specs.Prelude.{◌≡◌, cond, Some, Ok, Err, IfOk};
ghost use Rattle.ledger.specs.Orders.{holds as holds_number};
ghost use Rattle.ledger.specs.Calls.{Edit, Call, bad_window, bad_day};
ghost use Rattle.orders.specs.Lists.{place_in};
ghost use Rattle.state.specs.Answers.{Checked};
ghost use Rattle.state.specs.Model.{ledger_of};

use super::State;
use crate::{HORIZON, LAST_TODAY};
use faults::Check;
use records::Window;
use records::limits::MOST_RECORDS;

// Refuses what fails a check.
fn refuse_if(fails: bool, check: Check) -> Result<(), Check>
    ensures { result ≡ cond fails (Err check) (Ok tt) }
{
    if fails { Err(check) } else { Ok(()) }
}

impl State {
    // Whether an order is held under a number.
    pub(crate) fn holds(&self, number: u16) -> bool
        ensures { result ≡ holds_number number (ledger_of self.now).held }
    {
        self.table.find(number).is_some()
    }

    // Whether a day is lit.
    pub(crate) fn is_lit(&self, day: u16) -> bool
        ensures { result ≡ (ledger_of self.now).lit day }
    {
        !self.is_outside(day) && self.lit[usize::from(day) % HORIZON]
    }

    // Whether a day is not of the horizon: a comparison as short as a call of the records' check of a window.
    pub(crate) fn is_outside(&self, day: u16) -> bool
        ensures { result ≡ bad_day (ledger_of self.now) day }
    {
        day < self.today || usize::from(day - self.today) >= HORIZON
    }

    // Whether a window ends before it begins, begins before today or ends after the horizon.
    fn is_bad(&self, asked: Window) -> bool
        ensures { result ≡ bad_window (ledger_of self.now) asked.first asked.last }
    {
        asked.last < asked.first || asked.first < self.today || self.is_outside(asked.last)
    }

    pub(crate) fn check_admit(&self, number: u16, asked: Window, marks: usize) -> Result<(), Check>
        ensures { Checked (ledger_of self.now) (Call.edit (Edit.admit number asked.first asked.last) marks) result }
    {
        refuse_if(number == 0, Check::NumberZero)?;
        refuse_if(self.holds(number), Check::NumberHeld)?;
        refuse_if(self.table.len() >= MOST_RECORDS, Check::BookFull)?;
        refuse_if(self.is_bad(asked), Check::BadWindow)?;
        refuse_if(marks < HORIZON, Check::TooShort)
    }

    pub(crate) fn check_change(&self, number: u16, asked: Window, marks: usize) -> Result<(), Check>
        ensures { Checked (ledger_of self.now) (Call.edit (Edit.change number asked.first asked.last) marks) result }
    {
        refuse_if(!self.holds(number), Check::NumberUnknown)?;
        refuse_if(self.is_bad(asked), Check::BadWindow)?;
        refuse_if(marks < HORIZON, Check::TooShort)
    }

    pub(crate) fn check_withdraw(&self, number: u16, marks: usize) -> Result<(), Check>
        ensures { Checked (ledger_of self.now) (Call.edit (Edit.withdraw number) marks) result }
    {
        refuse_if(!self.holds(number), Check::NumberUnknown)?;
        refuse_if(marks < HORIZON, Check::TooShort)
    }

    pub(crate) fn check_light(&self, day: u16, marks: usize) -> Result<(), Check>
        ensures { Checked (ledger_of self.now) (Call.edit (Edit.light day) marks) result }
    {
        refuse_if(self.is_outside(day), Check::DayOutside)?;
        refuse_if(self.is_lit(day), Check::LitAlready)?;
        refuse_if(marks < HORIZON, Check::TooShort)
    }

    pub(crate) fn check_douse(&self, day: u16) -> Result<(), Check>
        ensures { Checked (ledger_of self.now) (Call.douse day) result }
    {
        refuse_if(self.is_outside(day), Check::DayOutside)?;
        refuse_if(!self.is_lit(day), Check::LitAlready)
    }

    pub(crate) fn check_window(&self, number: u16) -> Result<(), Check>
        ensures { Checked (ledger_of self.now) (Call.window number) result }
    {
        refuse_if(!self.holds(number), Check::NumberUnknown)
    }

    // Passed, the place of the order that is asked about.
    pub(crate) fn check_probe(&self, number: u16, day: u16) -> Result<usize, Check>
        ensures checked { Checked (ledger_of self.now) (Call.probe number day) result }
        ensures place { IfOk result (λ place. Some place ≡ place_in number (ledger_of self.now).held) }
    {
        let place = self.table.find(number).ok_or(Check::NumberUnknown)?;
        refuse_if(self.is_outside(day), Check::DayOutside)?;
        Ok(place)
    }

    pub(crate) fn check_plan(&self, room: usize) -> Result<(), Check>
        ensures { Checked (ledger_of self.now) (Call.plan room) result }
    {
        refuse_if(room < self.table.len(), Check::TooShort)
    }

    pub(crate) fn check_turn(&self, room: usize) -> Result<(), Check>
        ensures { Checked (ledger_of self.now) (Call.turn room) result }
    {
        refuse_if(room < self.table.len(), Check::TooShort)?;
        refuse_if(self.today == LAST_TODAY, Check::LastDay)
    }
}
