// The translator in rising order, for MultiMMC: each value's number is how many distinct values are smaller.
#![tactic(auto)]

ghost use Rattle.std.specs.Prelude.{◌≡◌, true, ◌<◌, EachIndex, get_or, length};
ghost use Rattle.alphabet.specs.Alphabet.{alphabet_in, alphabet_of, distinct, output_of, sorted};

use answer::Refusal;
use marks::ranking::Ranking;
use renumber::renumber;

// Whether all of the values stand below how many there are, so that each is its own number and the capture is its own
// translation. The number of the first value that does not stand below says how many do.
#[tactic(auto, using(crate::proofs::OwnNumbers::all_sorted, crate::proofs::OwnNumbers::own_sorted))]
fn is_own(ranking: &Ranking) -> bool
    ensures { EachIndex ranking.now (λ i. get_or ranking.now i 0 < 256) → result ≡ true → sorted ranking.now ≡ ranking.now }
{
    match u8::try_from(ranking.size()) {
        Ok(size) => ranking.number(size) == size,
        Err(_) => true,
    }
}

// Writes the symbols as they are: with no look-up, many go at a time. No `copy_from_slice`, which would be a call of memmove.
fn copy(symbols: &[u8], out: &mut [u8])
    requires { length out.old ≡ length symbols.now }
    ensures { out.new ≡ symbols.now }
{
    for i in 0..symbols.len() {
        out[i] = symbols[i];
    }
}

// Numbers the values in rising order and translates. Returns how many there are.
fn number_by_value(symbols: &[u8], out: &mut [u8]) -> u64
    requires { length out.old ≡ length symbols.now }
    ensures { (result ≡ distinct symbols.now) × (out.new ≡ sorted symbols.now) }
{
    let ranking = Ranking::of(symbols);
    if is_own(&ranking) {
        copy(symbols, out);
    } else {
        renumber(&ranking, out);
    }
    ranking.size()
}

// value_sorted_alphabet: the capture's values numbered in rising order. The result is how many there are.
#[tactic(auto, using(alphabet::proofs::Translating::alphabet_refused))]
pub fn value_sorted_alphabet(symbols: &[u8], out: &mut [u8]) -> Result<u64, Refusal>
    ensures { (alphabet_in result ≡ alphabet_of symbols.now out.old)
        × (out.new ≡ output_of sorted symbols.now out.old) }
{
    alphabet::refusal(symbols, out)?;
    Ok(number_by_value(symbols, &mut out[..symbols.len()]))
}
