// The state of a book: the calls that a book and a trial share, over any calendar.
#![tactic(auto)]

pub mod state;

pub use faults::{BookFault, Cause, Check};
pub use state::State;

// The days of the horizon, from today on.
pub const HORIZON: usize = 56;

// The last day that can be today.
pub const LAST_TODAY: u16 = 65480;
