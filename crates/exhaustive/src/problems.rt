use arrayvec::ArrayVec;
use records::Window;

// The most days and the most records of a problem.
pub const SIZE: usize = 3;

// Room for more marks and windows than a problem has, so that it shows whether those beyond its own stay.
pub const ROOM: usize = 5;

// A window that no problem has.
pub const FAR: Window = Window { first: 9, last: 8 };

// Two numbers of 0 to 2 in order: a day's fewest and most, or a window's first and last day.
const IN_ORDER: [(u16, u16); 6] = [(0, 0), (0, 1), (1, 1), (0, 2), (1, 2), (2, 2)];

// A pair for each day, from day `first` on, and a window for each record, its days counted from the first.
#[derive(Drop)]
pub struct Problem {
    pub first: u16,
    pub pairs: ArrayVec<(u16, u16), SIZE>,
    pub windows: ArrayVec<(u16, u16), SIZE>,
}

// So many digits of a number, the last one first, each of them naming two numbers in order.
fn digits(mut number: usize, base: usize, count: u32) -> ArrayVec<(u16, u16), SIZE> {
    let mut all = ArrayVec::new();
    for _ in 0..count {
        if base > 0 && !all.is_full() {
            all.push(IN_ORDER[number % base % 6]);
            number /= base;
        }
    }
    all
}

// How many windows lie within so many days.
pub fn windows_in(days: u32) -> usize {
    match days {
        1 => 1,
        2 => 3,
        _ => 6,
    }
}

impl Problem {
    // The problem with these numbers among those of its size.
    pub fn numbered(first: u16, days: u32, pairs: usize, count: u32, windows: usize) -> Problem {
        Problem {
            first,
            pairs: digits(pairs, 6, days),
            windows: digits(windows, windows_in(days), count),
        }
    }

    // The day that comes so many days after the first.
    pub fn day(&self, after: u16) -> u16 {
        self.first.saturating_add(after)
    }

    // A window on the problem's days.
    pub fn on_days(&self, (first, last): (u16, u16)) -> Window {
        Window {
            first: self.day(first),
            last: self.day(last),
        }
    }

    // The problem's records, on its days, with windows behind them that no problem has.
    pub fn working_list(&self) -> [Window; ROOM] {
        let mut list = [FAR; ROOM];
        for (each, window) in list.iter_mut().zip(self.windows.iter()) {
            *each = self.on_days(*window);
        }
        list
    }
}
