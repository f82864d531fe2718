ghost use Rattle.std.specs.Prelude.{◌≡◌, [], length};
ghost use Rattle.orders.specs.Lists.{place_in};
ghost use Rattle.orders.specs.Tables.{listed, held_in};

use super::Table;
use crate::listing;
use crate::order::Order;
use records::Window;
use records::limits::MOST_RECORDS;

impl Table {
    // Holds no order.
    pub fn empty() -> Table
        ensures { held_in result ≡ [] }
    {
        let unused = Order::new(0, Window { first: 0, last: 0 });
        Table {
            orders: [unused; MOST_RECORDS],
            len: 0,
        }
    }

    // The orders held, in the order of the table.
    pub fn as_slice(&self) -> &[Order]
        ensures { result.now ≡ listed self.now }
    {
        &self.orders[..self.len]
    }

    // How many orders are held.
    pub fn len(&self) -> usize
        ensures { result ≡ length (held_in self.now) }
    {
        self.as_slice().len()
    }

    // The place of the order under a number.
    pub fn find(&self, number: u16) -> Option<usize>
        ensures { result ≡ place_in number (held_in self.now) }
    {
        listing::find(self.as_slice(), number)
    }
}
