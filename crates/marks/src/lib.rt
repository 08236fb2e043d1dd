// The values of a capture: how many there are, and how many are smaller than each.
#![tactic(auto)]

ghost use Rattle.std.specs.Prelude.{◌≡◌};
ghost use Rattle.alphabet.specs.Alphabet.{distinct};

use crate::ranking::Ranking;

pub mod ranking;
mod seen;

// How many distinct values a capture has.
pub fn alphabet_size(symbols: &[u8]) -> u64
    ensures { result ≡ distinct symbols.now }
{
    Ranking::of(symbols).size()
}
