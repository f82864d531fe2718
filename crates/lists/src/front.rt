ghost use Rattle.std.specs.Prelude.{◌≡◌, ◌-◌, ◌≤◌, length, drop, replicate};

// At most so many numbers: the first `len` of `values`. The others are 0.
#[derive(Clone, Copy, PartialEq, Eq, PartialOrd, Ord, Hash, Debug)]
pub struct Front<const CAP: usize> {
    values: [u16; CAP],
    len: usize,
    ghost full: { length values ≡ CAP },
    ghost few: { len ≤ CAP },
    ghost blank: { drop len values ≡ replicate (CAP - len) 0 },
}

// There is no room for one more.
#[derive(Clone, Copy, PartialEq, Eq, Debug)]
pub struct Full;

pub mod calls;
