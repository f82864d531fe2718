// The calls that a book and a trial share. Each only passes the calendar on: a state has none, so that a trial can copy it. A number and
// the window asked for go side by side, as the rules give them.
ghost use Rattle.std.specs.Prelude.{◌≡◌, [], length};
ghost use Rattle.ledger.specs.Calls.{Edit, Call};
ghost use Rattle.ledger.specs.Replies.{reply};
ghost use Rattle.state.specs.Answers.{Edits, Lists, douse_reply, window_reply, probe_reply, plan_reply};
ghost use Rattle.state.specs.Model.{ledger_of};
ghost use Rattle.book.specs.Lives.{Goes};

use super::Desk;
use crate::mode::Mode;
use calendar::Calendar;
use records::Window;
use state::BookFault;

impl<C: Calendar, M: Mode> Desk<C, M> {
    // Holds a new order.
    pub fn admit(&mut self, number: u16, asked: Window, marks: &mut [u8]) -> Result<(), BookFault>
        ensures told { Edits (C.told self.old.calendar) (ledger_of self.old.state) (Edit.admit number asked.first asked.last) result marks.old marks.new }
        ensures goes { Goes C.told M.begun M.begun (Call.edit (Edit.admit number asked.first asked.last) (length marks.old)) self.old self.new }
    {
        self.state.admit(&self.calendar, number, asked, marks)
    }

    // Gives an order another window.
    pub fn change(&mut self, number: u16, asked: Window, marks: &mut [u8]) -> Result<(), BookFault>
        ensures told { Edits (C.told self.old.calendar) (ledger_of self.old.state) (Edit.change number asked.first asked.last) result marks.old marks.new }
        ensures goes { Goes C.told M.begun M.begun (Call.edit (Edit.change number asked.first asked.last) (length marks.old)) self.old self.new }
    {
        self.state.change(&self.calendar, number, asked, marks)
    }

    // Takes an order out; its number may be used again.
    pub fn withdraw(&mut self, number: u16, marks: &mut [u8]) -> Result<(), BookFault>
        ensures told { Edits (C.told self.old.calendar) (ledger_of self.old.state) (Edit.withdraw number) result marks.old marks.new }
        ensures goes { Goes C.told M.begun M.begun (Call.edit (Edit.withdraw number) (length marks.old)) self.old self.new }
    {
        self.state.withdraw(&self.calendar, number, marks)
    }

    // Makes a day lit.
    pub fn light(&mut self, day: u16, marks: &mut [u8]) -> Result<(), BookFault>
        ensures told { Edits (C.told self.old.calendar) (ledger_of self.old.state) (Edit.light day) result marks.old marks.new }
        ensures goes { Goes C.told M.begun M.begun (Call.edit (Edit.light day) (length marks.old)) self.old self.new }
    {
        self.state.light(&self.calendar, day, marks)
    }

    // Makes a day unlit.
    pub fn douse(&mut self, day: u16) -> Result<(), BookFault>
        ensures told { douse_reply result ≡ reply (C.told self.old.calendar) (ledger_of self.old.state) (Call.douse day) [] }
        ensures goes { Goes C.told M.begun M.begun (Call.douse day) self.old self.new }
    {
        self.state.douse(&self.calendar, day)
    }

    // The first and the last day that an order has in any plan.
    pub fn window(&self, number: u16) -> Result<(u16, u16), BookFault>
        ensures { window_reply result ≡ reply (C.told self.now.calendar) (ledger_of self.now.state) (Call.window number) [] }
    {
        self.state.window(&self.calendar, number)
    }

    // Whether some plan gives an order a day.
    pub fn probe(&self, number: u16, day: u16) -> Result<bool, BookFault>
        ensures { probe_reply result ≡ reply (C.told self.now.calendar) (ledger_of self.now.state) (Call.probe number day) [] }
    {
        self.state.probe(&self.calendar, number, day)
    }

    // Writes a day for each held order, by ascending number: of all plans the one whose list of days comes first. Tells how
    // many; later entries of the list stay.
    pub fn plan(&self, list: &mut [u16]) -> Result<usize, BookFault>
        ensures { Lists (C.told self.now.calendar) (ledger_of self.now.state) (Call.plan (length list.old)) result (plan_reply result list.new) list.old list.new }
    {
        self.state.plan(&self.calendar, list)
    }
}
