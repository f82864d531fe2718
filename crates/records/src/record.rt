ghost use Rattle.std.specs.Prelude.{◌≡◌, ℕ};
ghost use Rattle.records.specs.Records.{taking};

pub mod bare;

// Anything with a window, a first and a last day. Its meaning is that window and the rest of it.
pub trait Record {
    // the window
    ghost span: { Self → ℕ × ℕ };

    // the same record with another window: the rest of it stays
    ghost put: { Self → ℕ × ℕ → Self };

    // The first and the last day.
    fn window(&self) -> (u16, u16)
        ensures { result ≡ span self.now };

    // Takes any window with first ≤ last; any other leaves the record as it is. First and last are two numbers, as in the rule.
    fn set_window(&mut self, first: u16, last: u16)
        ensures { self.new ≡ taking put self.old (first, last) };

    ghost tells: { (r : Self) (w : ℕ × ℕ) → span (put r w) ≡ w };

    ghost again: { (r : Self) (v w : ℕ × ℕ) → put (put r v) w ≡ put r w };

    ghost same: { (r : Self) → put r (span r) ≡ r };
}
