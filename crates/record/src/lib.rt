// An estimator's answer as a record: the writer and the reader.
#![tactic(auto)]

pub mod flag;
pub mod read;
pub mod write;

use answer::{Answer, DONE, Refusal};
use recordable::Held;

// A record that was read: how many bytes it takes, and what it holds.
#[derive(Clone, Copy)]
pub struct Reading {
    pub size: usize,
    pub held: Held,
}

// The same by its answer number, whatever that is.
#[derive(Clone, Copy)]
pub struct Numbered {
    pub number: u64,
    pub size: u64,
    pub held: Held,
}

// What a writer says, as C has it: the answer number, and how many bytes the record takes, 0 where it is refused.
#[repr(C)]
#[derive(Clone, Copy)]
pub struct Written {
    pub number: u64,
    pub size: u64,
}

impl From<Result<usize, Refusal>> for Written {
    ghost use Rattle.std.specs.Prelude.{◌≡◌};
    ghost use Rattle.record.specs.Told.{written_told};

    ghost from_gives = { λ found written. written ≡ written_told found };

    fn from(found: Result<usize, Refusal>) -> Written {
        match found {
            Ok(size) => Written {
                number: DONE,
                size: size as u64,
            },
            Err(refusal) => Written {
                number: refusal.number(),
                size: 0,
            },
        }
    }
}

// What a reader says, as C has it: the answer number, how many bytes the record takes, a flag, 1 where it tells who predicted
// and 0 where that is absent, and the answer; where it is refused, 0, 0 and the answer of the refusal.
#[repr(C)]
#[derive(Clone, Copy)]
pub struct Flagged {
    pub number: u64,
    pub size: u64,
    pub told: u64,
    pub answer: Answer,
}
