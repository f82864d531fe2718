ghost use Rattle.std.specs.Prelude.{◌≡◌};
ghost use Rattle.reading.specs.Numbers.{number_of};
ghost use Rattle.reading.specs.Steps.{step_of};

// One more digit after a number, where it is a digit and the number stays within 65,535.
fn step(n: u16, b: u8) -> Option<u16>
    ensures { result ≡ step_of n b }
{
    if !b.is_ascii_digit() {
        return None;
    }
    n.checked_mul(10)?.checked_add(u16::from(b - b'0'))
}

// The number that the bytes write in decimal, without leading zeros and at most 65,535.
pub fn number(bytes: &[u8]) -> Option<u16>
    ensures { result ≡ number_of bytes.now }
{
    match bytes {
        [] | [b'0', _, ..] => None,
        _ => bytes.iter().try_fold(0, |n, b| step(n, *b)),
    }
}
