// The order book of a bakery, over any calendar: a book, on which the day turns, and a trial, which is kept or undone.
#![tactic(auto)]

pub mod desk;
pub mod mode;

pub use desk::{Book, Desk, Trial};
