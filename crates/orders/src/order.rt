ghost use Rattle.std.specs.Prelude.{◌≡◌};
ghost use Rattle.orders.specs.Records.{told_span, retold, new_order, told_begun};
ghost use Rattle.std.proofs.Common.{rules};

use records::{Record, Window};

// An order: its number, the window that was asked for, and the window that the narrowing tells.
#[derive(Clone, Copy, PartialEq, Eq, Debug)]
pub struct Order {
    pub number: u16,
    pub asked: Window,
    pub told: Window,
}

impl Record for Order {
    ghost span = { told_span };

    ghost put = { retold };

    ghost tells = { Prim.search rules };

    ghost again = { Prim.search rules };

    ghost same = { Prim.search rules };

    fn window(&self) -> (u16, u16) {
        self.told.window()
    }

    fn set_window(&mut self, first: u16, last: u16) {
        self.told.set_window(first, last);
    }
}

impl Order {
    // An order as it is entered: told the window that it asks for.
    pub fn new(number: u16, asked: Window) -> Order
        ensures { result ≡ new_order number asked }
    {
        Order {
            number,
            asked,
            told: asked,
        }
    }

    // Tells the asked window, begun no earlier than today.
    pub fn begin_at(&mut self, today: u16)
        ensures { self.new ≡ told_begun today self.old }
    {
        self.told = Window {
            first: today.max(self.asked.first),
            last: self.asked.last,
        };
    }
}
