// Records with windows on a range of days: the verdict whether some plan gives each of them a day, the narrowing of their
// windows to the days that plans give them, and the question whether a plan gives one of them a certain day.
// Casts are written `as`: most widen inside a sum or a place, which reads shorter so, there is no From from usize down, and none
// from u32 to usize; the prover shows that none loses anything.
// The public calls take the first day and the pairs, and a place and a day, side by side: the rules give them so. Past the checks the
// days go as one value. The records are a slice, which the narrowing goes on to write, and so a value that lent them could not be
// kept: that they are at most 512 and proper stays said by each function.
#![tactic(auto)]

mod counting;
mod days;
mod judging;
pub mod laws;
mod narrowing;
mod needs;
mod right;
mod runs;
mod scans;
mod shortage;
pub mod support;
mod tables;
mod tight;

pub use judging::verdict;
pub use narrowing::narrow;
pub use refusals::Fault;
pub use support::{SupportFault, supports};
