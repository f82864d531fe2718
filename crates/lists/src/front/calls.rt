ghost use Rattle.std.specs.Prelude.{◌≡◌, ◌-◌, ◌≤◌, ◌++◌, [], ◌∷◌, length, replicate, if◌then◌else◌};
ghost use Rattle.std.specs.Result.{is_ok};
ghost use Rattle.lists.specs.Fronts.{items, has_room};

use super::{Front, Full};
use std::ops::DerefSlice;

impl<const CAP: usize> Front<CAP> {
    // No numbers yet.
    pub fn new() -> Front<CAP>
        ensures { items result ≡ [] }
    {
        Front {
            values: [0; CAP],
            len: 0,
        }
    }

    // One more, after the others; where there is no room, nothing changes.
    pub fn push(&mut self, number: u16) -> Result<(), Full>
        ensures answer { is_ok result ≡ has_room self.old }
        ensures list { items self.new ≡ (if has_room self.old then items self.old ++ (number ∷ []) else items self.old) }
    {
        if self.len == CAP {
            return Err(Full);
        }
        self.values[self.len] = number;
        self.len += 1;
        Ok(())
    }

    // The numbers as a list.
    pub fn as_slice(&self) -> &[u16]
        ensures { result.now ≡ items self.now }
    {
        &self.values[..self.len]
    }

    // All of the memory: the numbers, and zeros behind them.
    pub fn whole(&self) -> &[u16; CAP]
        ensures { result.now ≡ items self.now ++ replicate (CAP - length (items self.now)) 0 }
    {
        &self.values
    }
}

impl<const CAP: usize> DerefSlice for Front<CAP> {
    type Elem = u16;

    ghost deref_gives = { λ list ns. (ns ≡ items list) × (length ns ≤ CAP) };

    fn deref(&self) -> &[u16] {
        self.as_slice()
    }
}
