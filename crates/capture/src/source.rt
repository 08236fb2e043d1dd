// A source of bits, and its bits one after the other.
ghost use Rattle.std.specs.Prelude.{◌≡◌, ◌<◌, ℕ, List, get_or, length, IfOk, IfErr};
ghost use Rattle.std.specs.Iterator.{YieldsFirst, item_count};
ghost use Rattle.answer.specs.Results.{number_in, place_of};
ghost use Rattle.capture.specs.Inner.Sources.{AreBits, IsSource, IsWalk, bits_left};
ghost use Rattle.capture.specs.Bits.{all_bits, source_refusal};

use crate::bits::{SYMBOL_LIMIT, no_width};
use answer::Refusal;
use std::marker::Model;

// Symbols, of each of which the `width` low bits are taken, highest first. Contracts see the list of the bits.
#[derive(Drop)]
pub struct Source<'a> {
    symbols: &'a [u8],
    width: u8,
}

impl<'a> Model for Source<'a> {
    ghost Value = { List ℕ };

    ghost view = { λ s. all_bits s.symbols.now s.width };

    ghost invariant = { λ s. IsSource s.symbols.now s.width };
}

impl<'a> Source<'a> {
    pub fn new(symbols: &'a [u8], width: u8) -> Self
        requires { IsSource symbols.now width }
        ensures { result ≡ all_bits symbols.now width }
    {
        Source { symbols, width }
    }

    // That of a capture, which may be too long, or its width none.
    #[tactic(auto, using(crate::proofs::Limits::source_asks), unfolding(crate::specs::Limit::symbol_limit))]
    pub fn of(symbols: &'a [u8], width: u8) -> Result<Self, Refusal>
        ensures number { number_in result ≡ source_refusal symbols.now width }
        ensures bits { IfOk result (λ s. s ≡ all_bits symbols.now width) }
        ensures place { IfErr result (λ e. place_of e ≡ 0) }
    {
        if SYMBOL_LIMIT < symbols.len() {
            return Err(Refusal::TooLong);
        }
        if no_width(width) {
            return Err(Refusal::BadWidth);
        }
        Ok(Source::new(symbols, width))
    }

    // How many bits there are.
    pub fn len(&self) -> usize
        ensures { result ≡ length self.now }
    {
        self.symbols.len() * usize::from(self.width)
    }

    // Bit i.
    pub fn bit(&self, i: usize) -> u8
        requires { i < length self.now }
        ensures { result ≡ get_or self.now i 0 }
    {
        let per = usize::from(self.width);
        let after = per - 1 - i % per;
        (self.symbols[i / per] >> after) % 2
    }

    pub fn bits(self) -> Bits<'a>
        ensures all { result ≡ self.entry }
        ensures bits { AreBits self.entry }
    {
        let width = u32::from(self.width);
        Bits {
            symbols: self.symbols,
            width,
            at: 0,
            after: width - 1,
        }
    }
}

// The bits of a source that are left. The next stands in byte `at`, before `after` others of that byte.
#[derive(Drop)]
pub struct Bits<'a> {
    symbols: &'a [u8],
    width: u32,
    at: usize,
    after: u32,
}

impl<'a> Model for Bits<'a> {
    ghost Value = { List ℕ };

    ghost view = { λ b. bits_left b.symbols.now b.width b.at b.after };

    ghost invariant = { λ b. IsWalk b.symbols.now b.width b.at b.after };
}

impl<'a> Iterator for Bits<'a> {
    type Item = u8;

    ghost next_gives = { YieldsFirst (λ b. b) };

    ghost remaining = { item_count (λ b. b) };

    fn next(&mut self) -> Option<u8> {
        if self.symbols.len() <= self.at {
            return None;
        }
        let bit = (self.symbols[self.at] >> self.after) % 2;
        if self.after == 0 {
            self.at += 1;
            self.after = self.width - 1;
        } else {
            self.after -= 1;
        }
        Some(bit)
    }
}
