ghost use Rattle.std.specs.Prelude.{◌≡◌};
ghost use Rattle.records.specs.Faults.{number_of, place_of, counts_of, layer_of};

use refusals::Fault;

// Why there is no verdict, or what it is where there is no plan.
#[derive(Clone, Copy, PartialEq, Eq, Debug)]
pub enum NarrowingFault {
    // no days or more than 128, fewer marks than days, or days after day 65,535
    BadRange,
    // the first day whose fewest is above its most, or whose most is above 512
    BadPair(u16),
    // more than 512 records
    TooManyRecords,
    // the place of the first record whose window ends before it begins or leaves the days
    BadWindow(usize),
    // no assignment keeps the mosts: the windows inside the marked run, and the sum of its mosts
    Overfull { windows: u16, mosts: u32 },
    // some assignment does, but there is no plan: the windows that meet the marked set, and the sum of its fewests
    Short { windows: u16, fewests: u32 },
}

impl Fault for NarrowingFault {
    ghost numbered = { number_of };

    ghost placed = { place_of };

    ghost lettered = { layer_of };

    fn number(self) -> u16 {
        match self {
            NarrowingFault::BadRange => 10,
            NarrowingFault::BadPair(_) => 11,
            NarrowingFault::TooManyRecords => 12,
            NarrowingFault::BadWindow(_) => 13,
            NarrowingFault::Overfull { .. } => 20,
            NarrowingFault::Short { .. } => 21,
        }
    }

    // The day or the place of a record that it names.
    fn place(self) -> Option<usize> {
        match self {
            NarrowingFault::BadPair(day) => Some(usize::from(day)),
            NarrowingFault::BadWindow(place) => Some(place),
            _ => None,
        }
    }

    fn layer(self) -> char {
        'K'
    }
}

impl NarrowingFault {
    // The two counts of the marked set: its windows, and the sum of its mosts or fewests.
    pub fn counts(self) -> Option<(u16, u32)>
        ensures { result ≡ counts_of self }
    {
        match self {
            NarrowingFault::Overfull { windows, mosts } => Some((windows, mosts)),
            NarrowingFault::Short { windows, fewests } => Some((windows, fewests)),
            _ => None,
        }
    }
}
