ghost use Rattle.std.specs.Prelude.{◌≡◌, ◌≤◌, true, length};
ghost use Rattle.orders.specs.Tables.{held_in};
ghost use Rattle.state.specs.Near.{near_all};

use crate::HORIZON;
use orders::Table;

// What a book holds, without its calendar: today, which days are lit, by the day mod 56, and the orders.
// It has no model: the ledger that it is has a function in it, which days are lit, and the value of a model may not.
#[derive(Clone, Copy)]
pub struct State {
    today: u16,
    lit: [bool; HORIZON],
    table: Table,
    ghost early: { today ≤ 65480 },
    ghost slots: { length lit ≡ 56 },
    ghost near: { near_all today (held_in table) ≡ true },
}

mod asks;
mod checks;
mod edits;
mod turns;
mod weighs;
