// A sheet: the three lines that open it, its faults and its replies.
#![tactic(auto)]

pub mod fault;
pub mod opening;
mod pairing;
pub mod reply;

pub use fault::{Refusal, SheetFault};
pub use refusals::Fault;
