ghost use Rattle.std.specs.Prelude.{◌≡◌};
ghost use Rattle.sheet.specs.declared.fault.SheetFault.TheVariants.{Calendar};
ghost use Rattle.sheet.specs.Faults.{number_of, place_of, layer_of, refused_at, from_unfit};

use calendar::CalendarFault;
use reading::Unfit;
use refusals::Fault;

// Why a line of a sheet is refused.
#[derive(Clone, Copy, PartialEq, Eq, Debug)]
pub enum SheetFault {
    // the sheet has more than 60,000 bytes
    TooLong,
    // line 1 is not `OVB 1`
    NoMark,
    // a line above 200 bytes, a letter that does not stand here, or another number of fields
    BadLine,
    // the first field that is no number begins in this column
    BadField(usize),
    // the sheet ends before this line
    Missing(usize),
    // the calendar refuses what the line asks for
    Calendar(CalendarFault),
}

// A fault, with the line and the column where it came up.
#[derive(Clone, Copy, PartialEq, Eq, Debug)]
pub struct Refusal {
    pub fault: SheetFault,
    pub line: usize,
    pub column: usize,
}

impl From<CalendarFault> for SheetFault {
    ghost from_gives = { λ f r. r ≡ Calendar f };

    fn from(fault: CalendarFault) -> SheetFault {
        SheetFault::Calendar(fault)
    }
}

impl From<Unfit> for SheetFault {
    ghost from_gives = { λ u r. r ≡ from_unfit u };

    fn from(unfit: Unfit) -> SheetFault {
        match unfit {
            Unfit::BadLine => SheetFault::BadLine,
            Unfit::BadField(column) => SheetFault::BadField(column),
        }
    }
}

impl Fault for SheetFault {
    ghost numbered = { number_of };

    ghost placed = { place_of };

    ghost lettered = { layer_of };

    fn number(self) -> u16 {
        match self {
            SheetFault::TooLong => 50,
            SheetFault::NoMark => 50,
            SheetFault::BadLine => 51,
            SheetFault::BadField(_) => 52,
            SheetFault::Missing(_) => 53,
            SheetFault::Calendar(fault) => fault.number(),
        }
    }

    // The column, line, row or run that it names.
    fn place(self) -> Option<usize> {
        match self {
            SheetFault::BadField(column) => Some(column),
            SheetFault::Missing(line) => Some(line),
            SheetFault::Calendar(fault) => fault.place(),
            _ => None,
        }
    }

    fn layer(self) -> char {
        match self {
            SheetFault::Calendar(fault) => fault.layer(),
            _ => 'S',
        }
    }
}

impl SheetFault {
    // The fault on a line of the sheet.
    pub fn at(self, line: usize) -> Refusal
        ensures { result ≡ refused_at line self }
    {
        let column = match self {
            SheetFault::BadField(column) => column,
            _ => 1,
        };
        Refusal {
            fault: self,
            line,
            column,
        }
    }
}
