// The days of a range that passed the checks.
ghost use Rattle.std.specs.Prelude.{◌≤◌, length};

// The days from `first` on, each with its pair.
#[derive(Clone, Copy)]
pub(crate) struct Days<'a> {
    pub(crate) first: u16,
    pub(crate) pairs: &'a [(u16, u16)],
    ghost few: { length pairs.now ≤ 128 },
}
