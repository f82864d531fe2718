// The orders of a book, as records with the window that the narrowing tells, and the table that holds them.
#![tactic(auto)]

mod listing;
pub mod order;
pub mod table;

pub use order::Order;
pub use table::Table;
