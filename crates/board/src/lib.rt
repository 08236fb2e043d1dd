// The board figure: the smallest min-entropy per symbol of the four estimates, and none unless all four ran.
#![tactic(auto)]

mod answers;
mod given;

ghost use Rattle.std.specs.Prelude.{◌≡◌};
ghost use Rattle.board.specs.Board.{figure_of};
ghost use Rattle.board.specs.Given.{figure_in, place_in, told_place};

use answer::{Answer, Refusal};
use answers::Answers;
use capture::bits::no_width;
pub use given::{Figure, Given, Which};

// The board figure, in bits of min-entropy per symbol, and the estimate that gave it. Refused are a width that is none, first of all, then the first
// refused of the four, then an entropy out of its range, then an estimate that was not run.
// Kept: (a) C gives the four answers one by one (abutfern_board_figure).
#[tactic(auto, unfolding(crate::specs::Board::figure_of, crate::specs::Board::figure_number))]
pub fn board_figure(
    mcw_bits: Answer,
    mcw_literal: Answer,
    mmc_bits: Answer,
    mmc_literal: Answer,
    bits_per_symbol: u8,
) -> Result<Given, Refusal>
    ensures figure { figure_in result ≡ figure_of mcw_bits mcw_literal mmc_bits mmc_literal bits_per_symbol }
    ensures place { place_in result ≡ told_place mcw_bits mcw_literal mmc_bits mmc_literal bits_per_symbol }
{
    let answers = Answers {
        mcw_bits,
        mcw_literal,
        mmc_bits,
        mmc_literal,
    };
    if no_width(bits_per_symbol) {
        return Err(Refusal::BadWidth);
    }
    if let Some(refusal) = answers.first_refusal() {
        return Err(refusal);
    }
    if !answers.all_in_range() {
        return Err(Refusal::OutOfRange);
    }
    if !answers.all_ran() {
        return Err(Refusal::NotRun);
    }
    Ok(answers.smallest(bits_per_symbol))
}
