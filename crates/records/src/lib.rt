// Records, which have windows, what is asked of them before a verdict, and why it is refused.
#![tactic(auto)]

mod checks;
pub mod fault;
pub mod limits;
pub mod record;

pub use checks::check;
pub use fault::NarrowingFault;
pub use record::Record;
pub use record::bare::{Window, copy_windows};
pub use refusals::Fault;
