// Calendars: how few and how many orders each day takes.
#![tactic(auto)]

ghost use Rattle.std.specs.Prelude.{◌≡◌, ℕ, ◌<◌};
ghost use Rattle.pairs.specs.Pairs.{Sound};

pub mod fault;
pub mod layer;
pub mod list;
mod rows;
mod table;
pub mod week;

pub use fault::CalendarFault;
pub use layer::Closing;
pub use list::Listed;
pub use refusals::Fault;
pub use week::Weekly;

// The most pairs of a listed calendar, one for each day from 0 to 65,535.
pub const LISTED_PAIRS: usize = 65536;

// The most closed runs of a layer.
pub const CLOSED_RUNS: usize = 16;

// A pair (fewest, most) for every day from 0 to 65,535.
pub trait Calendar {
    // the pair of each day
    ghost told: { Self → ℕ → ℕ × ℕ };

    // what whoever adds a calendar shows: fewest ≤ most ≤ 512 on every day
    ghost sound: { (c : Self) (t : ℕ) → t < 65536 → Sound (told c t) };

    // The pair of a day.
    fn pair(&self, day: u16) -> (u16, u16)
        ensures { result ≡ told self.now day };
}
