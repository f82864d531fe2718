ghost use Rattle.std.specs.Prelude.{◌≡◌, false, is_some};
ghost use Rattle.pairs.specs.Pairs.{bad_pair};

// The pairs of a borrowed list for the first days, and (0, 0) later.
#[derive(Drop)]
pub struct Listed<'a> {
    rows: &'a [(u16, u16)],
    ghost sound: { is_some (bad_pair rows.now) ≡ false },
}

pub mod calls;
