// A figure that is given, and the figure that C gets.
ghost use Rattle.std.specs.Prelude.{◌≡◌};
ghost use Rattle.board.specs.Board.{smaller};
ghost use Rattle.board.specs.Given.{entry_of};

use answer::{DONE, Refusal, no_value};

// The estimates, in the order of the board figure.
#[derive(Clone, Copy, Debug, PartialEq, Eq)]
pub enum Which {
    McwBits,
    McwLiteral,
    MmcBits,
    MmcLiteral,
}

impl From<Which> for u64 {
    ghost use Rattle.std.specs.Prelude.{◌≡◌};
    ghost use Rattle.board.specs.Given.{which_number};

    ghost from_gives = { λ which number. number ≡ which_number which };

    fn from(which: Which) -> u64 {
        match which {
            Which::McwBits => 1,
            Which::McwLiteral => 2,
            Which::MmcBits => 3,
            Which::MmcLiteral => 4,
        }
    }
}

// A figure, in bits of min-entropy per symbol, and the estimate that gave it.
#[derive(Clone, Copy, Debug)]
pub struct Given {
    pub which: Which,
    pub value: f64,
}

impl Given {
    // The smaller of two figures, the first where they are equal.
    #[tactic(auto, unfolding(crate::specs::Board::smaller))]
    pub fn smaller(self, other: Given) -> Given
        ensures { entry_of result ≡ smaller (entry_of self) (entry_of other) }
    {
        if other.value < self.value {
            other
        } else {
            self
        }
    }
}

// The figure as C has it, the estimate by its number, from 1; or the number of a refusal.
#[repr(C)]
#[derive(Clone, Copy)]
pub struct Figure {
    pub number: u64,
    pub which: u64,
    pub value: f64,
}

impl From<Result<Given, Refusal>> for Figure {
    ghost use Rattle.std.specs.Prelude.{◌≡◌};
    ghost use Rattle.board.specs.Given.{figure_in};

    ghost from_gives = { λ found figure. figure ≡ figure_in found };

    fn from(found: Result<Given, Refusal>) -> Figure {
        match found {
            Ok(given) => Figure {
                number: DONE,
                which: given.which.into(),
                value: given.value,
            },
            Err(refusal) => Figure {
                number: refusal.number(),
                which: 0,
                value: no_value(),
            },
        }
    }
}
