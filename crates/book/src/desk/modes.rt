// The calls of a book, and those of a trial. Those that change the mode write the desk out: it is of another type then.
ghost use Rattle.std.specs.Prelude.{◌≡◌, length, None};
ghost use Rattle.ledger.specs.Calls.{Call};
ghost use Rattle.ledger.specs.Lives.{opened};
ghost use Rattle.state.specs.Answers.{Lists, turn_reply};
ghost use Rattle.state.specs.Model.{ledger_of};
ghost use Rattle.book.specs.Lives.{none, begun_in, life_of, Goes};

use super::Desk;
use crate::mode::{Live, Trying};
use calendar::Calendar;
use state::{BookFault, State};

impl<C: Calendar> Desk<C, Live> {
    // Opens a book: today is 0, no order is held and no day is lit.
    pub fn open(calendar: C) -> Desk<C, Live>
        ensures life { life_of result.state None ≡ opened }
        ensures same { result.calendar ≡ calendar }
    {
        Desk {
            calendar,
            state: State::fresh(),
            mode: Live,
        }
    }

    // Lets out the orders that the plan puts on today, writes their numbers in ascending order and tells how many; then it is
    // the next day. Later entries of the list stay.
    pub fn turn(&mut self, list: &mut [u16]) -> Result<usize, BookFault>
        ensures told { Lists (C.told self.old.calendar) (ledger_of self.old.state) (Call.turn (length list.old)) result (turn_reply result list.new) list.old list.new }
        ensures goes { Goes C.told none none (Call.turn (length list.old)) self.old self.new }
    {
        self.state.turn(&self.calendar, list)
    }

    // Makes the book into a trial.
    pub fn begin(self) -> Desk<C, Trying>
        ensures { Goes C.told none begun_in Call.begin self result }
    {
        let begun = self.state;
        Desk {
            calendar: self.calendar,
            state: begun,
            mode: Trying { begun },
        }
    }
}

impl<C: Calendar> Desk<C, Trying> {
    // The trial becomes a book as it is.
    pub fn keep(self) -> Desk<C, Live>
        ensures { Goes C.told begun_in none Call.keep self result }
    {
        Desk {
            calendar: self.calendar,
            state: self.state,
            mode: Live,
        }
    }

    // The trial becomes the book that began it.
    pub fn undo(self) -> Desk<C, Live>
        ensures { Goes C.told begun_in none Call.undo self result }
    {
        Desk {
            calendar: self.calendar,
            state: self.mode.begun,
            mode: Live,
        }
    }
}
