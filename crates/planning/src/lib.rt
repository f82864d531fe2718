// The first plan of records: of all plans the one whose list of days comes first, compared from the front.
#![tactic(auto)]

mod closing;
mod planning;

pub use planning::{Days, first_plan};
