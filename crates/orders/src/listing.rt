// Lists of orders.
ghost use Rattle.std.specs.Prelude.{◌≡◌, ◌≤◌, map, length, take};
ghost use Rattle.ledger.specs.Orders.{leaving};
ghost use Rattle.ledger.specs.Replies.{onto};
ghost use Rattle.orders.specs.Records.{entry_of, told_begun};
ghost use Rattle.orders.specs.Lists.{InOrder, place_in, entry_place, off};

use crate::order::Order;

// The place of the first order under a number.
pub fn find(orders: &[Order], number: u16) -> Option<usize>
    requires { InOrder (map entry_of orders.now) }
    ensures { result ≡ place_in number (map entry_of orders.now) }
{
    let place = orders.partition_point(|order| order.number < number);
    let order = orders.get(place)?;
    (order.number == number).then_some(place)
}

// The place before the first order with a larger number.
pub fn place_for(orders: &[Order], number: u16) -> usize
    requires { InOrder (map entry_of orders.now) }
    ensures place { result ≡ entry_place number (map entry_of orders.now) }
    ensures bound { result ≤ length orders.now }
{
    orders.partition_point(|order| order.number <= number)
}

// Tells each order its asked window, begun no earlier than today.
pub fn begin_at(orders: &mut [Order], today: u16)
    ensures { orders.new ≡ map (told_begun today) orders.old }
{
    for order in orders {
        order.begin_at(today);
    }
}

// Writes the numbers of the orders whose day is today to the front of a list, and tells how many. The places are counted, as
// these are fewer than the orders.
pub fn write_leaving(orders: &[Order], days: &[u16], today: u16, list: &mut [u16]) -> usize
    requires { length orders.now ≤ length list.old }
    ensures many { result ≡ length (leaving today (map entry_of orders.now) days.now) }
    ensures list { list.new ≡ onto (leaving today (map entry_of orders.now) days.now) list.old }
{
    let mut count = 0;
    for (order, day) in orders.iter().zip(days) {
        if *day == today {
            list[count] = order.number;
            count += 1;
        }
    }
    count
}

// Moves the orders with another day to the front, and tells how many. They are counted, and moved within their own list, which
// is why the one above is not this one.
pub fn keep_staying(orders: &mut [Order], days: &[u16], today: u16) -> usize
    requires { length days.now ≡ length orders.old }
    ensures bound { result ≤ length orders.old }
    ensures front { take result orders.new ≡ off today orders.old days.now }
{
    let mut count = 0;
    for (place, day) in days.iter().enumerate() {
        if *day != today {
            orders[count] = orders[place];
            count += 1;
        }
    }
    count
}
