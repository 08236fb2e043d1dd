// The translator by first sight, for MultiMCW: a capture's values are numbered from 0 as they are first seen.
#![tactic(auto)]

ghost use Rattle.std.specs.Prelude.{◌≡◌, ◌<◌, ◌≤◌, length};
ghost use Rattle.alphabet.specs.Alphabet.{alphabet_in, alphabet_of, dense, distinct, output_of, written};
ghost use Rattle.dense.specs.Inner.Sight.{entered, next_after};

use answer::Refusal;

// A value that was not seen yet: no number of a value is as large.
const UNSEEN: u16 = 256;

// Gives value x the next number where it was not seen yet. Returns the number that is next then.
fn enter(numbers: &mut [u16; 256], x: usize, next: u16) -> u16
    requires { (x < 256) × (next ≤ 256) }
    ensures { (result ≡ next_after numbers.old x next) × (numbers.new ≡ entered numbers.old x next) }
{
    if numbers[x] == UNSEEN {
        numbers[x] = next;
        return next + 1;
    }
    next
}

// Numbers the values by first sight as it translates. Returns how many there are. Not inlined: so that where the loop lies in its lines of code does
// not hang on what goes before it.
#[inline(never)]
fn number_by_sight(symbols: &[u8], out: &mut [u8]) -> u64
    requires { length symbols.now ≤ length out.old }
    ensures { (result ≡ distinct symbols.now) × (out.new ≡ written (dense symbols.now) out.old) }
{
    let mut numbers = [UNSEEN; 256];
    let mut next: u16 = 0;
    for (i, symbol) in symbols.iter().enumerate() {
        let x = usize::from(*symbol);
        next = enter(&mut numbers, x, next);
        out[i] = numbers[x] as u8;
    }
    u64::from(next)
}

// dense_alphabet: the capture's values numbered by first sight. The result is how many there are.
#[tactic(auto, using(alphabet::proofs::Translating::alphabet_refused))]
pub fn dense_alphabet(symbols: &[u8], out: &mut [u8]) -> Result<u64, Refusal>
    ensures { (alphabet_in result ≡ alphabet_of symbols.now out.old)
        × (out.new ≡ output_of dense symbols.now out.old) }
{
    alphabet::refusal(symbols, out)?;
    Ok(number_by_sight(symbols, out))
}
