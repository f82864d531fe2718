// Why the book refuses a call.
#![tactic(auto)]

ghost use Rattle.std.specs.Prelude.{◌≡◌};
ghost use Rattle.faults.specs.Faults.{check_number, number_of, place_of, counts_of, layer_of};
ghost use Rattle.faults.specs.declared.Cause.TheVariants.{Failed, Engine};

use records::NarrowingFault;
pub use refusals::Fault;

// The check that a call does not pass.
#[derive(Clone, Copy, PartialEq, Eq, Debug)]
pub enum Check {
    // the order number is 0
    NumberZero,
    // the number is held already
    NumberHeld,
    // no order is held under that number
    NumberUnknown,
    // 512 orders are held
    BookFull,
    // the window ends before it begins, begins before today or ends after the horizon
    BadWindow,
    // the day is not of the horizon
    DayOutside,
    // the day is lit already, or is to be doused and is not lit
    LitAlready,
    // a list is shorter than the orders held, or the marks are fewer than the days of the horizon
    TooShort,
    // today is the last day that a book can have
    LastDay,
}

// Why a call is refused.
#[derive(Clone, Copy, PartialEq, Eq, Debug)]
pub enum Cause {
    Failed(Check),
    // no plan would remain
    Engine(NarrowingFault),
}

// A refusal with what it is about: the call's order number, else its day, else today.
#[derive(Clone, Copy, PartialEq, Eq, Debug)]
pub struct BookFault {
    pub cause: Cause,
    pub subject: u16,
}

impl From<Check> for Cause {
    ghost from_gives = { λ check cause. cause ≡ Failed check };

    fn from(check: Check) -> Cause {
        Cause::Failed(check)
    }
}

impl From<NarrowingFault> for Cause {
    ghost from_gives = { λ fault cause. cause ≡ Engine fault };

    fn from(fault: NarrowingFault) -> Cause {
        Cause::Engine(fault)
    }
}

impl BookFault {
    // A refusal for a check or a fault of the engine, with what it is about.
    pub fn about<C: Into<Cause>>(subject: u16, cause: C) -> BookFault
        ensures cause { C.converts cause result.cause }
        ensures subject { result.subject ≡ subject }
    {
        BookFault {
            cause: cause.into(),
            subject,
        }
    }
}

impl Check {
    // The number of the refusal.
    pub fn number(self) -> u16
        ensures { result ≡ check_number self }
    {
        match self {
            Check::NumberZero => 30,
            Check::NumberHeld => 31,
            Check::NumberUnknown => 32,
            Check::BookFull => 33,
            Check::BadWindow => 34,
            Check::DayOutside => 35,
            Check::LitAlready => 36,
            Check::TooShort => 37,
            Check::LastDay => 38,
        }
    }
}

impl Fault for BookFault {
    ghost numbered = { λ fault. number_of fault.cause };

    ghost placed = { λ fault. place_of fault.cause };

    ghost lettered = { λ fault. layer_of fault.cause };

    fn number(self) -> u16 {
        match self.cause {
            Cause::Failed(check) => check.number(),
            Cause::Engine(fault) => fault.number(),
        }
    }

    // The day or the place that the engine names.
    fn place(self) -> Option<usize> {
        match self.cause {
            Cause::Failed(_) => None,
            Cause::Engine(fault) => fault.place(),
        }
    }

    fn layer(self) -> char {
        match self.cause {
            Cause::Failed(_) => 'B',
            Cause::Engine(fault) => fault.layer(),
        }
    }
}

impl BookFault {
    // The two counts of the marked set.
    pub fn counts(self) -> Option<(u16, u32)>
        ensures { result ≡ counts_of self.cause }
    {
        match self.cause {
            Cause::Failed(_) => None,
            Cause::Engine(fault) => fault.counts(),
        }
    }
}
