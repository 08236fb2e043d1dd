// Captures: symbols one to a byte, and what their bits are.
#![tactic(auto)]

use answer::{DONE, Refusal};

pub mod bits;
pub mod refusal;
pub mod source;

// What the bit reader returns, as C has it. `place` is that of number 3.
#[repr(C)]
#[derive(Clone, Copy)]
pub struct BitRead {
    pub number: u64,
    pub place: u64,
    pub bit: u64,
}

impl From<Result<u8, Refusal>> for BitRead {
    ghost use Rattle.std.specs.Prelude.{◌≡◌};
    ghost use Rattle.capture.specs.Reader.{bit_read_of};

    ghost from_gives = { λ found read. read ≡ bit_read_of found };

    fn from(found: Result<u8, Refusal>) -> BitRead {
        match found {
            Ok(bit) => BitRead {
                number: DONE,
                place: 0,
                bit: u64::from(bit),
            },
            Err(refusal) => BitRead {
                number: refusal.number(),
                place: refusal.place(),
                bit: 0,
            },
        }
    }
}
