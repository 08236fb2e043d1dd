// The min-entropy -log2 p of a probability p from 1/256 to 1, in whole units of 2 ^ -24 bit, by arithmetic on `f64`
// alone: never above the exact value, at most three units below it, and exact where p is a power of two.
#![tactic(auto)]

ghost use Rattle.std.specs.Prelude.{◌≡◌};
ghost use Rattle.answer.specs.Results.{value_of};
ghost use Rattle.entropy.specs.Entropy.{bits_of, entropy_units, leading, log_digits, whole_bits};
ghost use Rattle.entropy.specs.MinEntropy.{min_entropy_of};

use answer::Refusal;

// A probability times 2^j.
#[derive(Clone, Copy)]
struct Scaled {
    x: f64,
    j: u32,
}

// p doubled until it is 1 at least, at most 8 times, and how often.
fn doubled(p: f64) -> Scaled
    ensures { (result.x ≡ leading p) × (result.j ≡ whole_bits p) }
{
    let mut x = p;
    for j in 0..8 {
        if !(x < 1.0) {
            return Scaled { x, j };
        }
        x *= 2.0;
    }
    Scaled { x, j: 8 }
}

// log2 of a number from 1 to 2, in units: 24 squarings, each of which gives a binary digit.
fn log_units(start: f64) -> u32
    ensures { result ≡ log_digits 24 start }
{
    let mut x = start;
    let mut bits: u32 = 0;
    for _ in 0..24u32 {
        x *= x;
        bits *= 2;
        if x >= 2.0 {
            x *= 0.5;
            bits += 1;
        }
    }
    bits
}

// The figure in units.
fn entropy_units(p: f64) -> u32
    ensures { result ≡ entropy_units p }
{
    let s = doubled(p);
    let whole = s.j * 16777216;
    if s.x == 1.0 {
        return whole;
    }
    whole.saturating_sub(log_units(s.x) + 2)
}

// m units as an `f64`: exactly m / 2 ^ 24, and -0.0 for 0.
fn bits_of(m: u32) -> f64
    ensures { result ≡ bits_of m }
{
    if m == 0 {
        return -0.0;
    }
    f64::from(m) * 0.000000059604644775390625
}

// The min-entropy of p, or number 5 where p is no number from 1/256 to 1.
#[tactic(auto, using(crate::proofs::Cases::least_is, crate::proofs::Cases::one_is), unfolding(crate::specs::MinEntropy::min_entropy_of, crate::specs::Entropy::entropy_of))]
pub fn min_entropy(p: f64) -> Result<f64, Refusal>
    ensures { value_of result ≡ min_entropy_of p }
{
    if 0.00390625 <= p && p <= 1.0 {
        Ok(bits_of(entropy_units(p)))
    } else {
        Err(Refusal::OutOfRange)
    }
}
