ghost use Rattle.book.specs.Lives.{none, begun_in};

use super::{Live, Mode, Trying};

impl Mode for Live {
    ghost begun = { none };
}

impl Mode for Trying {
    ghost begun = { begun_in };
}
