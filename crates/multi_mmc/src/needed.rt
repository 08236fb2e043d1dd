// How much work space the literal track takes.
ghost use Rattle.std.specs.Prelude.{◌≡◌};
ghost use Rattle.capture.specs.Refusals.{symbols_refusal};
ghost use Rattle.multi_mmc.specs.Tracks.{least_samples, literal_number, needed};

use crate::{BINARY_SPACE, GENERAL_SPACE, LEAST_SAMPLES};
use capture::bits::SYMBOL_LIMIT;
use marks::alphabet_size;

// How many numbers of work space the capture takes: at most two values are counted as bits.
fn space_needed(symbols: &[u8]) -> usize
    ensures { result ≡ needed symbols.now }
{
    if alphabet_size(symbols) <= 2 {
        BINARY_SPACE
    } else {
        GENERAL_SPACE
    }
}

// Whether what is lent to the literal track is too short for the capture. Not asked of one that is too long or too short to be run, which is
// refused for that without going through its symbols.
#[tactic(auto, unfolding(crate::specs::Tracks::literal_number, capture::specs::Limit::symbol_limit))]
pub fn is_short(symbols: &[u8], out: &[u8], space: &[u32]) -> bool
    ensures { symbols_refusal symbols.now least_samples result ≡ literal_number symbols.now out.now space.now }
{
    if SYMBOL_LIMIT < symbols.len() || symbols.len() < LEAST_SAMPLES {
        return false;
    }
    out.len() < symbols.len() || space.len() < space_needed(symbols)
}
