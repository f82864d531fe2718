ghost use Rattle.std.specs.Prelude.{◌≡◌, ◌≤◌, length, map, take};
ghost use Rattle.orders.specs.Records.{entry_of};
ghost use Rattle.orders.specs.Lists.{InOrder, InOrder-prop};

use crate::order::Order;
use records::limits::MOST_RECORDS;

// At most 512 orders, the first `len` of `orders`, in ascending order of number.
// An array and a count: a table is `Copy`, which a vector inside it would not be.
// No method lends the orders as `&mut [Order]`: whoever has them could leave them out of order.
#[derive(Clone, Copy)]
pub struct Table {
    orders: [Order; MOST_RECORDS],
    len: usize,
    ghost full: { length orders ≡ 512 },
    ghost few: { len ≤ 512 },
    ghost sorted: { InOrder (map entry_of (take len orders)) } by { InOrder-prop (map entry_of (take len orders)) },
}

pub mod calls;
pub mod edits;
pub mod windows;
