// Bytes read as lines, fields and numbers.
#![tactic(auto)]

mod cut;
pub mod decimal;
pub mod reader;
pub mod values;
pub mod words;

pub use reader::Lines;
pub use values::{Numbers, line_numbers};
pub use words::{Count, Field, Fields, Unfit};
