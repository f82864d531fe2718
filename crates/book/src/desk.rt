use crate::mode::{Live, Trying};
use state::State;

// A calendar and a state on it. Its mode says whether it is a book or a trial. It has no model of its own, since its value would
// be a life, whose lit days are a function.
#[derive(Drop)]
pub struct Desk<C, M> {
    calendar: C,
    state: State,
    mode: M,
}

// The order book of a bakery.
pub type Book<C> = Desk<C, Live>;

// A book on which things are tried out.
pub type Trial<C> = Desk<C, Trying>;

pub mod both;
pub mod modes;
