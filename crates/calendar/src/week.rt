ghost use Rattle.std.specs.Prelude.{◌≡◌, ◌<◌, false, is_some};
ghost use Rattle.pairs.specs.Pairs.{bad_pair};

// Seven pairs, one for each weekday, and the weekday of day 0.
#[derive(Clone, Copy)]
pub struct Weekly {
    rows: [(u16, u16); 7],
    start: u16,
    ghost sound: { is_some (bad_pair rows) ≡ false },
    ghost weekday: { start < 7 },
}

pub mod calls;
