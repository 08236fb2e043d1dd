// The answer over a track's samples: the race, and what it comes to.
ghost use Rattle.std.specs.Prelude.{◌≡◌, ◌≤◌, length};
ghost use Rattle.answer.specs.Results.{rated_answer};
ghost use Rattle.capture.specs.Limit.{symbol_limit};
ghost use Rattle.mmc_bits.specs.Levels.{cap, levels};
ghost use Rattle.mmc_bits.specs.Space as BitSpace;
ghost use Rattle.mmc_store.specs.Space as StoreSpace;
ghost use Rattle.multi_mmc.specs.Tracks.{bits_estimate, least_samples, store_estimate};

use answer::{Rated, Refusal};
use capture::source::Source;
use mmc_run::mmc_bits;
use mmc_symbols::mmc_symbols;
use rating::rate;

// Predictions start at this place.
const FIRST_PLACE: usize = 2;

// Over the bits of a source.
pub fn bits_estimate(source: Source, counters: &mut [u32]) -> Result<Rated, Refusal>
    requires { (least_samples ≤ length source) × (BitSpace.size levels ≤ length counters.old) }
    ensures value { rated_answer result ≡ bits_estimate source.entry }
    ensures counters_after { counters.new ≡ BitSpace.final levels cap source.entry counters.old }
{
    let n = source.len() - FIRST_PLACE;
    let outcome = mmc_bits(source, counters.first_chunk_mut().unwrap());
    rate(outcome, n as u64, 2)
}

// Over `samples`, of which k are distinct.
pub fn store_estimate(samples: &[u8], k: u64, space: &mut [u32]) -> Result<Rated, Refusal>
    requires { (least_samples ≤ length samples.now) × (length samples.now ≤ symbol_limit) × (StoreSpace.size levels ≤ length space.old) }
    ensures value { rated_answer result ≡ store_estimate samples.now k }
    ensures space_after { space.new ≡ StoreSpace.final levels space.old }
{
    let outcome = mmc_symbols(samples, space.first_chunk_mut().unwrap());
    let n = samples.len() - FIRST_PLACE;
    rate(outcome, n as u64, k)
}
