// Which captures a track takes, and what it answers where it refuses one.
ghost use Rattle.std.specs.Prelude.{◌≡◌, MatchResult};
ghost use Rattle.answer.specs.Results.{number_in, number_of, refused_by};
ghost use Rattle.capture.specs.Refusals.{bits_refusal, refused_on, symbols_refusal};
ghost use Rattle.capture.specs.Bits.{all_bits};

use crate::bits::{SYMBOL_LIMIT, first_wide, too_wide_at};
use crate::source::Source;
use answer::{Answer, Refusal, TOO_WIDE, refused_at};

// The bits that a bitstring track takes of a capture. Fewer than `least` are not run; `short` says that lent memory is too short.
pub fn accept_bits<'a>(
    symbols: &'a [u8],
    width: u8,
    least: usize,
    short: bool,
) -> Result<Source<'a>, Refusal>
    ensures number { number_in result ≡ bits_refusal symbols.now width least short }
    ensures found { MatchResult result (λ s. s ≡ all_bits symbols.now width) (λ e. refused_by e ≡ refused_on symbols.now (number_of e)) }
{
    let source = Source::of(symbols, width)?;
    if source.len() < least {
        return Err(Refusal::NotRun);
    }
    if short {
        return Err(Refusal::TooShort);
    }
    if let Some(place) = too_wide_at(symbols, width) {
        return Err(Refusal::TooWide(place as u64));
    }
    Ok(source)
}

// Whether a capture is taken where its samples are its symbols. Fewer than `least` are not run.
#[tactic(auto, unfolding(crate::specs::Limit::symbol_limit))]
pub fn accept_symbols(symbols: &[u8], least: usize, short: bool) -> Result<(), Refusal>
    ensures { number_in result ≡ symbols_refusal symbols.now least short }
{
    if SYMBOL_LIMIT < symbols.len() {
        return Err(Refusal::TooLong);
    }
    if symbols.len() < least {
        return Err(Refusal::NotRun);
    }
    if short {
        Err(Refusal::TooShort)
    } else {
        Ok(())
    }
}

// The answer of a refusal by its number. Only number 3 names a place.
#[tactic(auto, using(crate::proofs::Widest::wide_or_length))]
pub fn refused_on(symbols: &[u8], number: u64) -> Answer
    ensures { result ≡ refused_on symbols.now number }
{
    if number == TOO_WIDE {
        let place = first_wide(symbols).unwrap_or(symbols.len());
        return refused_at(number, place as u64);
    }
    refused_at(number, 0)
}
