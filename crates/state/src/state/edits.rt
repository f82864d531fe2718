// The calls that change what is held or lit: each changes a copy of the state and settles it. The change is one line; a closure
// in its place would need a bound and a clause in each. A number and the window asked for go side by side, as the rules give them.
ghost use Rattle.std.specs.Prelude.{◌≡◌, ◌+◌, ◌<◌, ◌≤◌, [], length};
ghost use Rattle.ledger.specs.Calls.{Edit, Call, with_light as switched};
ghost use Rattle.ledger.specs.Replies.{reply, ledger_after};
ghost use Rattle.ledger.specs.Lives.{fresh as just_opened};
ghost use Rattle.state.specs.Answers.{Edited, douse_reply};
ghost use Rattle.state.specs.Model.{ledger_of};
ghost use Rattle.state.specs.Weights.{Settles};

use super::State;
use crate::HORIZON;
use calendar::Calendar;
use faults::BookFault;
use orders::Table;
use records::Window;

impl State {
    // Today is 0, no order is held and no day is lit.
    pub fn fresh() -> State
        ensures { ledger_of result ≡ just_opened }
    {
        State {
            today: 0,
            lit: [false; HORIZON],
            table: Table::empty(),
        }
    }

    // The state with a day lit or unlit.
    fn with_light(&self, day: u16, on: bool) -> State
        requires { (self.now.today ≤ day) × (day < self.now.today + 56) }
        ensures { ledger_of result ≡ switched day on (ledger_of self.now) }
    {
        let mut next = *self;
        next.lit[usize::from(day) % HORIZON] = on;
        next
    }

    // Becomes the next state if that has a plan; else stays as it is, and the marks show why.
    fn settle<C: Calendar>(
        &mut self,
        calendar: &C,
        mut next: State,
        subject: u16,
        marks: &mut [u8],
    ) -> Result<(), BookFault>
        requires { 56 ≤ length marks.old }
        ensures { Settles (C.told calendar.now) (ledger_of self.old) (ledger_of next) subject result marks.old marks.new (ledger_of self.new) }
    {
        next.weigh(calendar, marks)
            .map_err(|fault| BookFault::about(subject, fault))?;
        *self = next;
        Ok(())
    }

    // Holds a new order.
    pub fn admit<C: Calendar>(
        &mut self,
        calendar: &C,
        number: u16,
        asked: Window,
        marks: &mut [u8],
    ) -> Result<(), BookFault>
        ensures { Edited (C.told calendar.now) (ledger_of self.old) (Edit.admit number asked.first asked.last) result marks.old marks.new (ledger_of self.new) }
    {
        self.check_admit(number, asked, marks.len())
            .map_err(|check| BookFault::about(number, check))?;
        let mut next = *self;
        next.table.enter(number, asked).unwrap();
        self.settle(calendar, next, number, marks)
    }

    // Gives an order another window.
    pub fn change<C: Calendar>(
        &mut self,
        calendar: &C,
        number: u16,
        asked: Window,
        marks: &mut [u8],
    ) -> Result<(), BookFault>
        ensures { Edited (C.told calendar.now) (ledger_of self.old) (Edit.change number asked.first asked.last) result marks.old marks.new (ledger_of self.new) }
    {
        self.check_change(number, asked, marks.len())
            .map_err(|check| BookFault::about(number, check))?;
        let mut next = *self;
        next.table.change(number, asked);
        self.settle(calendar, next, number, marks)
    }

    // Takes an order out.
    pub fn withdraw<C: Calendar>(
        &mut self,
        calendar: &C,
        number: u16,
        marks: &mut [u8],
    ) -> Result<(), BookFault>
        ensures { Edited (C.told calendar.now) (ledger_of self.old) (Edit.withdraw number) result marks.old marks.new (ledger_of self.new) }
    {
        self.check_withdraw(number, marks.len())
            .map_err(|check| BookFault::about(number, check))?;
        let mut next = *self;
        next.table.remove(number);
        self.settle(calendar, next, number, marks)
    }

    // Makes a day lit.
    pub fn light<C: Calendar>(
        &mut self,
        calendar: &C,
        day: u16,
        marks: &mut [u8],
    ) -> Result<(), BookFault>
        ensures { Edited (C.told calendar.now) (ledger_of self.old) (Edit.light day) result marks.old marks.new (ledger_of self.new) }
    {
        self.check_light(day, marks.len())
            .map_err(|check| BookFault::about(day, check))?;
        let next = self.with_light(day, true);
        self.settle(calendar, next, day, marks)
    }

    // Makes a day unlit.
    pub fn douse<C: Calendar>(&mut self, calendar: &C, day: u16) -> Result<(), BookFault>
        ensures told { douse_reply result ≡ reply (C.told calendar.now) (ledger_of self.old) (Call.douse day) [] }
        ensures ledger { ledger_of self.new ≡ ledger_after (C.told calendar.now) (ledger_of self.old) (Call.douse day) }
    {
        self.check_douse(day)
            .map_err(|check| BookFault::about(day, check))?;
        let next = self.with_light(day, false);
        let mut marks = [0; HORIZON];
        self.settle(calendar, next, day, &mut marks)
    }
}
