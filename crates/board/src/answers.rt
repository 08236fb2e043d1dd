// The four answers.
ghost use Rattle.std.specs.Prelude.{◌≡◌};
ghost use Rattle.board.specs.Board.{all_in_range, all_ran, in_range, per_symbol, ran, refusal, refusal_of, smallest};
ghost use Rattle.board.specs.Given.{entry_of, place_of_answer, refused_place};
ghost use Rattle.board.specs.Inner.Told.{number_told, place_told};

use crate::given::{Given, Which};
use answer::{
    Answer, BAD_STATE, BAD_WIDTH, DONE, IMPOSSIBLE, NOT_RUN, Refusal, TOO_LONG, TOO_SHORT, TOO_WIDE,
};

#[derive(Clone, Copy)]
pub struct Answers {
    pub mcw_bits: Answer,
    pub mcw_literal: Answer,
    pub mmc_bits: Answer,
    pub mmc_literal: Answer,
}

// By what an answer is refused, if it is. A number that no result has is out of range.
#[tactic(auto, unfolding(crate::specs::Board::refusal_of, answer::specs::Numbers::given))]
fn refusal_of(a: &Answer) -> Option<Refusal>
    ensures number { number_told result ≡ refusal_of a.now.number }
    ensures place { place_told result ≡ place_of_answer a.now }
{
    if a.number == DONE || a.number == NOT_RUN {
        return None;
    }
    // Kept: (a) in two parts. The gate (.ci/copies) follows no jump by a table, which one match of all the numbers is compiled to.
    Some(if a.number < IMPOSSIBLE {
        match a.number {
            TOO_LONG => Refusal::TooLong,
            TOO_SHORT => Refusal::TooShort,
            _ => Refusal::TooWide(a.place),
        }
    } else {
        match a.number {
            IMPOSSIBLE => Refusal::Impossible,
            BAD_WIDTH => Refusal::BadWidth,
            BAD_STATE => Refusal::BadState,
            _ => Refusal::OutOfRange,
        }
    })
}

#[tactic(auto, unfolding(crate::specs::Board::ran))]
fn has_run(a: &Answer) -> bool
    ensures { result ≡ ran a.now }
{
    a.number == DONE
}

// Whether an answer that ran has an entropy from 0 to `top`.
#[tactic(auto, unfolding(crate::specs::Board::in_range))]
fn in_range(a: &Answer, top: f64) -> bool
    ensures { result ≡ in_range a.now top }
{
    let value = a.estimate.min_entropy;
    !has_run(a) || 0.0 <= value && value <= top
}

// A bit's entropy times the width.
#[tactic(auto, unfolding(crate::specs::Board::per_symbol))]
fn per_symbol(a: &Answer, width: u8) -> f64
    ensures { result ≡ per_symbol a.now width }
{
    a.estimate.min_entropy * f64::from(width)
}

impl Answers {
    // The first refusal of the four.
    pub fn first_refusal(&self) -> Option<Refusal>
        ensures number { let a = self.now in number_told result ≡ refusal a.mcw_bits a.mcw_literal a.mmc_bits a.mmc_literal }
        ensures place { let a = self.now in
            place_told result ≡ refused_place a.mcw_bits a.mcw_literal a.mmc_bits a.mmc_literal }
    {
        refusal_of(&self.mcw_bits)
            .or(refusal_of(&self.mcw_literal))
            .or(refusal_of(&self.mmc_bits))
            .or(refusal_of(&self.mmc_literal))
    }

    // Whether every entropy is in its range, a bit's 0..1 and a symbol's 0..8.
    #[tactic(auto, using(crate::proofs::Tops::one_is, crate::proofs::Tops::eight_is), unfolding(crate::specs::Board::all_in_range))]
    pub fn all_in_range(&self) -> bool
        ensures { let a = self.now in result ≡ all_in_range a.mcw_bits a.mcw_literal a.mmc_bits a.mmc_literal }
    {
        in_range(&self.mcw_bits, 1.0)
            && in_range(&self.mcw_literal, 8.0)
            && in_range(&self.mmc_bits, 1.0)
            && in_range(&self.mmc_literal, 8.0)
    }

    // Whether all four ran.
    #[tactic(auto, unfolding(crate::specs::Board::all_ran))]
    pub fn all_ran(&self) -> bool
        ensures { let a = self.now in result ≡ all_ran a.mcw_bits a.mcw_literal a.mmc_bits a.mmc_literal }
    {
        has_run(&self.mcw_bits)
            && has_run(&self.mcw_literal)
            && has_run(&self.mmc_bits)
            && has_run(&self.mmc_literal)
    }

    // The smallest of the four, the earliest on equality.
    #[tactic(auto, unfolding(crate::specs::Board::smallest))]
    pub fn smallest(&self, width: u8) -> Given
        ensures { let a = self.now in
            entry_of result ≡ smallest a.mcw_bits a.mcw_literal a.mmc_bits a.mmc_literal width }
    {
        let first = Given {
            which: Which::McwBits,
            value: per_symbol(&self.mcw_bits, width),
        };
        let second = Given {
            which: Which::McwLiteral,
            value: self.mcw_literal.estimate.min_entropy,
        };
        let third = Given {
            which: Which::MmcBits,
            value: per_symbol(&self.mmc_bits, width),
        };
        let fourth = Given {
            which: Which::MmcLiteral,
            value: self.mmc_literal.estimate.min_entropy,
        };
        first.smaller(second).smaller(third).smaller(fourth)
    }
}
