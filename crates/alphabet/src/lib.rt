// The alphabets of a capture: its values numbered from 0, by first sight (crate dense, for MultiMCW) or in rising order
// (crate rising, for MultiMMC). Here is what both translators share.
#![tactic(auto)]

ghost use Rattle.std.specs.Prelude.{◌≡◌, ◌<◌, length};
ghost use Rattle.answer.specs.Results.{number_in};
ghost use Rattle.alphabet.specs.Alphabet.{alphabet_number};
ghost use Rattle.alphabet.specs.Inner.Numbering.{SymbolAt};

use answer::{DONE, Refusal};
use capture::refusal::accept_symbols;

// What a translator returns, as C has it: the number of distinct values.
#[repr(C)]
#[derive(Clone, Copy)]
pub struct Alphabet {
    pub number: u64,
    pub size: u64,
}

impl From<Result<u64, Refusal>> for Alphabet {
    ghost use Rattle.std.specs.Prelude.{◌≡◌};
    ghost use Rattle.alphabet.specs.Alphabet.{alphabet_in};

    ghost from_gives = { λ found alphabet. alphabet ≡ alphabet_in found };

    fn from(found: Result<u64, Refusal>) -> Alphabet {
        match found {
            Ok(size) => Alphabet { number: DONE, size },
            Err(refusal) => Alphabet {
                number: refusal.number(),
                size: 0,
            },
        }
    }
}

// Whether `symbols` are translated to `out`.
pub fn refusal(symbols: &[u8], out: &[u8]) -> Result<(), Refusal>
    ensures { number_in result ≡ alphabet_number symbols.now out.now }
{
    accept_symbols(symbols, 0, out.len() < symbols.len())
}

// The symbol at place i, an index of a table of 256.
pub fn symbol(symbols: &[u8], i: usize) -> usize
    requires { i < length symbols.now }
    ensures { SymbolAt symbols.now i result }
{
    usize::from(symbols[i])
}
