// Lists of numbers in fixed memory, which are copied like the numbers themselves. (The kit's list in fixed memory is no `Copy`.)
#![tactic(auto)]

pub mod front;

pub use front::{Front, Full};
