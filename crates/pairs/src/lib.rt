// The pair of a day: how few orders light its oven, and how many it takes at most.
#![tactic(auto)]

ghost use Rattle.std.specs.Prelude.{◌≡◌};
ghost use Rattle.pairs.specs.Pairs.{bad_pair};

// The most orders that any day takes.
pub const MOST: u16 = 512;

// The first place whose pair has its fewest above its most, or its most above 512.
pub fn first_bad_pair(pairs: &[(u16, u16)]) -> Option<usize>
    ensures { result ≡ bad_pair pairs.now }
{
    pairs
        .iter()
        .position(|&(fewest, most)| fewest > most || most > MOST)
}
