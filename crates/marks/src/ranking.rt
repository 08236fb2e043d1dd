// The values of a capture in rising order.

ghost use Rattle.std.specs.Prelude.{◌≡◌, ◌<◌, ℕ, List};
ghost use Rattle.alphabet.specs.Alphabet.{distinct, rising};
ghost use Rattle.marks.specs.Inner.Ranks.{Ranks};

use crate::seen::seen_in;
use std::marker::Model;

// A capture beside the numbers of its values in rising order: a value's number is how many distinct values are smaller.
// Contracts see the capture.
#[derive(Drop)]
pub struct Ranking<'a> {
    symbols: &'a [u8],
    numbers: [u8; 256],
    size: u64,
}

impl<'a> Model for Ranking<'a> {
    ghost Value = { List ℕ };

    ghost view = { λ r. r.symbols.now };

    ghost invariant = { λ r. Ranks r.symbols.now r.numbers r.size };
}

impl<'a> Ranking<'a> {
    pub fn of(symbols: &'a [u8]) -> Self
        ensures { result ≡ symbols.now }
    {
        // Filled in place: a table that is moved in would be a call of memcpy.
        let mut ranking = Ranking {
            symbols: &[],
            numbers: [0; 256],
            size: 0,
        };
        for (value, seen) in seen_in(symbols).iter().enumerate() {
            ranking.numbers[value] = ranking.size as u8;
            ranking.size += u64::from(*seen);
        }
        ranking.symbols = symbols;
        ranking
    }

    // The capture.
    pub fn symbols(&self) -> &'a [u8]
        ensures { result.now ≡ self.now }
    {
        self.symbols
    }

    // How many distinct values there are.
    pub fn size(&self) -> u64
        ensures { result ≡ distinct self.now }
    {
        self.size
    }

    // The number of a value.
    pub fn number(&self, value: u8) -> u8
        ensures { result ≡ rising self.now value }
    {
        self.numbers[usize::from(value)]
    }
}
