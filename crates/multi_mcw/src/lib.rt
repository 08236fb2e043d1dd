// MultiMCW, SP 800-90B 6.3.7: four windows, each of which predicts the commonest of the samples in it (Rust: multi_mcw.rs).
#![tactic(auto)]

ghost use Rattle.std.specs.Prelude.{◌≡◌, ◌≤◌, length};
ghost use Rattle.answer.specs.Results.{rated_answer};
ghost use Rattle.capture.specs.Limit.{symbol_limit};
ghost use Rattle.mcw_bits.specs.Mcw.{outcome_of};
ghost use Rattle.mcw_symbols.specs.Inner.Samples.{Samples};
ghost use Rattle.multi_mcw.specs.Tracks.{mcw_bits, mcw_literal, mcw_literal_output};

use answer::{Rated, Refusal};
use capture::refusal::{accept_bits, accept_symbols};
use capture::source::Source;
use dense::dense_alphabet;
use mcw_bits::run::mcw_bits;
use mcw_bits::{FIRST, FOURTH};
use mcw_symbols::run::mcw_symbols;
use race::Outcome;
use rating::rate;

// Fewer samples are not run.
pub const LEAST_SAMPLES: usize = FOURTH + 1;

// The bitstring track.
#[tactic(auto, using(crate::proofs::Answers::bits_refused, crate::proofs::Answers::bits_many, crate::proofs::Answers::bits_ran))]
pub fn multi_mcw(symbols: &[u8], bits_per_symbol: u8) -> Result<Rated, Refusal>
    ensures { rated_answer result ≡ mcw_bits symbols.now bits_per_symbol }
{
    let source = accept_bits(symbols, bits_per_symbol, LEAST_SAMPLES, false)?;
    let n = source.len() - FIRST;
    rate(mcw_bits(source), n as u64, 2)
}

// The race over k symbols numbered from 0; two values race as bits.
fn mcw_translated(s: &[u8], k: u64) -> Outcome
    requires { (length s.now ≤ symbol_limit) × Samples s.now k }
    ensures { result ≡ outcome_of s.now }
{
    if k <= 2 {
        return mcw_bits(Source::new(s, 1));
    }
    mcw_symbols(s, k as usize)
}

// The literal track, which has no width: a sample is a symbol. The symbols are translated into `out`.
#[tactic(auto, using(crate::proofs::Answers::literal_refused, crate::proofs::Answers::literal_asks, crate::proofs::Answers::literal_ran))]
pub fn multi_mcw_literal(symbols: &[u8], out: &mut [u8]) -> Result<Rated, Refusal>
    ensures { (rated_answer result ≡ mcw_literal symbols.now out.old)
        × (out.new ≡ mcw_literal_output symbols.now out.old) }
{
    accept_symbols(symbols, LEAST_SAMPLES, out.len() < symbols.len())?;
    let size = dense_alphabet(symbols, out)?;
    let n = symbols.len() - FIRST;
    rate(mcw_translated(&out[..symbols.len()], size), n as u64, size)
}
