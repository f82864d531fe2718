ghost use Rattle.std.specs.Prelude.{◌≡◌, ◌≤◌, length};
ghost use Rattle.reading.specs.Pieces.{before, piece_at, PartAt};

// How many bytes come before the first `end`.
fn distance(bytes: &[u8], end: u8) -> usize
    ensures value { result ≡ before end bytes.now }
    ensures within { result ≤ length bytes.now }
{
    bytes.iter().position(|b| *b == end).unwrap_or(bytes.len())
}

// The bytes from a place up to the next `end`, as that very part of them.
pub(crate) fn piece<'a>(bytes: &'a [u8], place: usize, end: u8) -> &'a [u8]
    requires { place ≤ length bytes.now }
    ensures value { result.now ≡ piece_at end bytes.now place }
    ensures part { PartAt bytes.entry place result }
{
    let rest = &bytes[place..];
    let n = distance(rest, end);
    &rest[..n]
}
