ghost use Rattle.std.specs.Prelude.{None, Option};
ghost use Rattle.ledger.specs.Ledger.{Ledger};

use state::State;

// Whether a desk has a book or a trial.
pub trait Mode {
    // in a trial, the ledger that began it
    ghost begun: { Self → Option Ledger };
}

// A book, on which the day turns.
#[derive(Clone, Copy)]
pub struct Live;

// A trial, with the state that began it.
#[derive(Clone, Copy)]
pub struct Trying {
    pub(crate) begun: State,
}

pub mod kinds;
