// MultiMMC, SP 800-90B 6.3.9: sixteen Markov models with counting, each of which predicts what most often followed its context
// (Rust: multi_mmc.rs).
#![tactic(auto)]

ghost use Rattle.std.specs.Prelude.{◌≡◌};
ghost use Rattle.answer.specs.Results.{rated_answer};
ghost use Rattle.multi_mmc.specs.Tracks.{mmc_bits, mmc_bits_space, mmc_literal, mmc_literal_output, mmc_literal_space};

use crate::estimate::{bits_estimate, store_estimate};
use crate::needed::is_short;
use alphabet::Alphabet;
use answer::{Rated, Refusal};
use capture::refusal::{accept_bits, accept_symbols};
use capture::source::Source;
use rising::value_sorted_alphabet;

mod estimate;
mod needed;

// Fewer samples are not run.
pub const LEAST_SAMPLES: usize = 4;

// The u32 counters of the sixteen levels on bits.
pub const BINARY_SPACE: usize = 262_140;

// The u32 numbers of the general store, 2^20 for each level.
pub const GENERAL_SPACE: usize = 16_777_216;

// The bitstring track.
pub fn multi_mmc(
    symbols: &[u8],
    bits_per_symbol: u8,
    counters: &mut [u32],
) -> Result<Rated, Refusal>
    ensures { (rated_answer result ≡ mmc_bits symbols.now bits_per_symbol counters.old)
        × (counters.new ≡ mmc_bits_space symbols.now bits_per_symbol counters.old) }
{
    let short = counters.len() < BINARY_SPACE;
    let source = accept_bits(symbols, bits_per_symbol, LEAST_SAMPLES, short)?;
    bits_estimate(source, counters)
}

// The literal track, which has no width: a sample is a symbol. The symbols are translated into `out`; the two numbers of at
// most two values are the bits.
pub fn multi_mmc_literal(
    symbols: &[u8],
    out: &mut [u8],
    space: &mut [u32],
) -> Result<Rated, Refusal>
    ensures { (rated_answer result ≡ mmc_literal symbols.now out.old space.old)
        × (out.new ≡ mmc_literal_output symbols.now out.old space.old)
        × (space.new ≡ mmc_literal_space symbols.now out.old space.old) }
{
    accept_symbols(symbols, LEAST_SAMPLES, is_short(symbols, out, space))?;
    let n = symbols.len();
    let found = value_sorted_alphabet(symbols, out);
    let alphabet = Alphabet::from(found);
    let samples = &out[..n];
    let binary = alphabet.size <= 2;
    if binary {
        return bits_estimate(Source::new(samples, 1), space);
    }
    store_estimate(samples, alphabet.size, space)
}
