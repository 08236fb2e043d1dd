// A capture translated by its values' numbers in rising order: eight symbols are looked up at a time.
#![tactic(auto)]

ghost use Rattle.std.specs.Prelude.{◌≡◌, ◌≤◌, length, map};
ghost use Rattle.alphabet.specs.Alphabet.{rising, sorted, written};

use marks::ranking::Ranking;

// Translates the symbols one by one.
fn renumber_each(symbols: &[u8], ranking: &Ranking, out: &mut [u8])
    requires { length out.old ≡ length symbols.now }
    ensures { out.new ≡ map (rising ranking.now) symbols.now }
{
    for (i, symbol) in symbols.iter().enumerate() {
        out[i] = ranking.number(*symbol);
    }
}

// Translates each symbol to a place of just their number. Eight are read before the first of them is written, so that the
// reads can overlap.
fn renumber_all(ranking: &Ranking, out: &mut [u8])
    requires { length out.old ≡ length ranking.now }
    ensures { out.new ≡ sorted ranking.now }
{
    let (eights, rest) = ranking.symbols().as_chunks::<8>();
    for (i, eight) in eights.iter().enumerate() {
        let numbers = eight.map(|symbol| ranking.number(symbol));
        out[8 * i..8 * i + 8].copy_from_slice(&numbers);
    }
    renumber_each(rest, ranking, &mut out[8 * eights.len()..]);
}

// Translates each symbol by its number.
pub fn renumber(ranking: &Ranking, out: &mut [u8])
    requires { length ranking.now ≤ length out.old }
    ensures { out.new ≡ written (sorted ranking.now) out.old }
{
    let n = ranking.symbols().len();
    renumber_all(ranking, &mut out[..n]);
}
