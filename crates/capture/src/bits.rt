// The bits of a capture, highest first of each symbol.
ghost use Rattle.std.specs.Prelude.{◌≡◌, ◌<◌, ◌&&◌, eqb, ltb, get_or, length};
ghost use Rattle.capture.specs.Limit.{no_width};
ghost use Rattle.capture.specs.Bits.{first_wide, too_wide_at, place_in};
ghost use Rattle.capture.specs.Reader.{bit_read, bit_read_of};

use crate::source::Source;
use answer::Refusal;

// The largest number of symbols of a capture.
pub const SYMBOL_LIMIT: usize = 16_777_216;

// Whether a width is none: 0, as a field that was left empty, or more bits than a byte has.
#[tactic(auto, unfolding(crate::specs::Limit::no_width))]
pub fn no_width(width: u8) -> bool
    ensures { result ≡ no_width width }
{
    width == 0 || 8 < width
}

// The first place of a symbol above 1.
pub fn first_wide(symbols: &[u8]) -> Option<usize>
    ensures { result ≡ place_in symbols.now (first_wide symbols.now) }
{
    symbols.iter().position(|x| 1 < *x)
}

// Where the first symbol stands that is above what the width takes.
pub fn too_wide_at(symbols: &[u8], width: u8) -> Option<usize>
    ensures { result ≡ place_in symbols.now (too_wide_at symbols.now width) }
{
    if width == 1 {
        first_wide(symbols)
    } else {
        None
    }
}

// Whether the symbol at a place is above what width 1 takes.
fn is_wide(symbols: &[u8], width: u8, place: usize) -> bool
    requires { width ≡ 1 → place < length symbols.now }
    ensures { result ≡ (eqb width 1 && ltb 1 (get_or symbols.now place 0)) }
{
    width == 1 && 1 < symbols[place]
}

// Bit i of a capture.
#[tactic(auto, using(crate::proofs::Reading::read_refused))]
pub fn bit(symbols: &[u8], width: u8, i: u64) -> Result<u8, Refusal>
    ensures { bit_read_of result ≡ bit_read symbols.now width i }
{
    let source = Source::of(symbols, width)?;
    let place = i as usize;
    if source.len() <= place {
        return Err(Refusal::TooShort);
    }
    if is_wide(symbols, width, place) {
        return Err(Refusal::TooWide(i));
    }
    Ok(source.bit(place))
}
