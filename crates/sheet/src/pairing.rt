ghost use Rattle.std.specs.Prelude.{◌≡◌, ◌≤◌, length};
ghost use Rattle.sheet.specs.Header.{in_pairs};

use arrayvec::ArrayVec;
use reading::words::LINE_BYTES;

// Half as many as a line has bytes, and so more pairs than it has.
const PAIRS: usize = LINE_BYTES / 2;

// The numbers two by two; a last one alone is left out.
pub(crate) fn pairs_of(numbers: &[u16]) -> ArrayVec<(u16, u16), PAIRS>
    requires { length numbers.now ≤ 200 }
    ensures { result.items ≡ in_pairs numbers.now }
{
    let mut pairs = ArrayVec::new();
    for pair in numbers.chunks_exact(2) {
        pairs.push((pair[0], pair[1]));
    }
    pairs
}
