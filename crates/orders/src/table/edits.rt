// Orders entered, changed, removed and let out. What is held and what is told are two clauses each, as callers use one of them.
// A number and the window asked for go side by side, as the rules give them; `Order` has the told window as well.
ghost use Rattle.std.specs.Prelude.{◌≡◌, length, is_some, ◌&&◌, if◌then◌else◌, Some, None};
ghost use Rattle.std.specs.List.{insert, remove};
ghost use Rattle.records.specs.Bare.{span_of};
ghost use Rattle.ledger.specs.Orders.{place as place_of, enter as entered, rewindow, without, staying};
ghost use Rattle.ledger.specs.Replies.{onto};
ghost use Rattle.orders.specs.Records.{new_order, entry_of};
ghost use Rattle.orders.specs.Lists.{entry_place, off};
ghost use Rattle.orders.specs.Tables.{held_in, told_in, has_room, room_for, days_of, due};

use super::Table;
use crate::listing;
use crate::order::Order;
use records::Window;
use records::limits::MOST_RECORDS;

impl Table {
    // Enters an order before the first with a larger number, and tells its place; it is told the window that it asks for. None
    // where 512 are held, and then nothing changes.
    pub fn enter(&mut self, number: u16, asked: Window) -> Option<usize>
        ensures answer { result ≡ (if has_room self.old then Some (entry_place number (held_in self.old)) else None) }
        ensures held { held_in self.new ≡ (if has_room self.old then entered (entry_of (new_order number asked)) (held_in self.old) else held_in self.old) }
        ensures told { told_in self.new ≡ (if has_room self.old then insert (told_in self.old) (entry_place number (held_in self.old)) (span_of asked) else told_in self.old) }
    {
        let count = self.len;
        if count == MOST_RECORDS {
            return None;
        }
        let place = listing::place_for(self.as_slice(), number);
        self.orders[count] = Order::new(number, asked);
        self.orders[place..=count].rotate_right(1);
        self.len += 1;
        Some(place)
    }

    // Asks for another window for the order under a number, if it is held. What it is told stays.
    #[tactic(auto, using(crate::proofs::Tables::found_within))]
    pub fn change(&mut self, number: u16, asked: Window)
        ensures held { held_in self.new ≡ rewindow number (span_of asked) (held_in self.old) }
        ensures told { told_in self.new ≡ told_in self.old }
    {
        if let Some(place) = self.find(number) {
            let order = &mut self.orders[place];
            order.asked = asked;
        }
    }

    // Removes the order under a number, if it is held.
    #[tactic(auto, using(crate::proofs::Tables::found_within))]
    pub fn remove(&mut self, number: u16)
        ensures held { held_in self.new ≡ without number (held_in self.old) }
        ensures told { told_in self.new ≡ remove (told_in self.old) (place_of number (held_in self.old)) }
    {
        if let Some(place) = self.find(number) {
            let count = self.len;
            self.orders[place..count].rotate_left(1);
            self.len -= 1;
        }
    }

    // Lets out the orders whose day is today: their numbers go to the front of a list, and the others stay in the table.
    // Tells how many went; nothing, where there are fewer days than orders held or the list is shorter, and then nothing changes.
    pub fn let_out(&mut self, today: u16, days: &[u16], list: &mut [u16]) -> Option<usize>
        ensures answer { result ≡ (if room_for self.old days.now && room_for self.old list.old then Some (length (due today self.old days.now)) else None) }
        ensures list { list.new ≡ (if is_some result then onto (due today self.old days.now) list.old else list.old) }
        ensures held { held_in self.new ≡ (if is_some result then staying today (held_in self.old) (days_of self.old days.now) else held_in self.old) }
        ensures told { told_in self.new ≡ (if is_some result then off today (told_in self.old) (days_of self.old days.now) else told_in self.old) }
    {
        let count = self.len;
        if days.len() < count || list.len() < count {
            return None;
        }
        let days = &days[..count];
        let out = listing::write_leaving(self.as_slice(), days, today, list);
        self.len = listing::keep_staying(&mut self.orders[0..count], days, today);
        Some(out)
    }
}
