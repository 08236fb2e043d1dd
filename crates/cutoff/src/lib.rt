// The cutoffs of the repetition count test of SP 800-90B 4.4.1, for a false alarm probability of 2^-20.
#![tactic(auto)]

ghost use Rattle.std.specs.Prelude.{◌≡◌, ◌↔◌, IsTrue};
ghost use Rattle.cutoff.specs.Cutoff.{Entry, cutoff_of, entry_of, in_range, told};

use answer::{DONE, Refusal};
use std::num::truncating_f64_to_u64;
use table::cutoff_at;

mod table;

// How many cutoffs there are: one for each 1/64 bit, up to 8 bits.
const ENTRIES: usize = 512;

// The 20 bits of the false alarm probability, in 1/64 bit.
const SPREAD: usize = 1280;

// The cutoff for an entropy, or a refusal, as C has it.
// Kept: (a) the C interface has this layout and these names.
#[repr(C)]
#[derive(Clone, Copy)]
pub struct Cutoff {
    pub number: u64,
    pub cutoff: u64,
}

impl From<Result<u16, Refusal>> for Cutoff {
    ghost use Rattle.std.specs.Prelude.{◌≡◌};
    ghost use Rattle.cutoff.specs.Cutoff.{told};

    ghost from_gives = { λ found cutoff. cutoff ≡ told found };

    fn from(found: Result<u16, Refusal>) -> Cutoff {
        match found {
            Ok(cutoff) => Cutoff {
                number: DONE,
                cutoff: u64::from(cutoff),
            },
            Err(refusal) => Cutoff {
                number: refusal.number(),
                cutoff: 0,
            },
        }
    }
}

// The entropy in whole 1/64 bit. The product is exact.
fn entry_of(entropy: f64) -> usize
    requires { IsTrue (in_range entropy) }
    ensures { result ≡ entry_of entropy }
{
    truncating_f64_to_u64(entropy * 64.0) as usize
}

// The cutoff for an entropy in bits per sample, rounded down to 1/64; out of range where it is none from 1/64 to 8.
pub fn cutoff_for(entropy: f64) -> Result<u16, Refusal>
    ensures { told result ≡ cutoff_of entropy }
{
    if 0.015625 <= entropy && entropy <= 8.0 {
        return Ok(cutoff_at(entry_of(entropy)));
    }
    Err(Refusal::OutOfRange)
}

// Whether a number is one of the cutoffs, without the table: the first entry whose cutoff is no larger has it, or none does.
pub fn is_cutoff(n: u16) -> bool
    ensures { IsTrue result ↔ Entry n }
{
    if n < 2 {
        return false;
    }
    let less_one = usize::from(n) - 1;
    let entry = SPREAD.div_ceil(less_one);
    let in_table = entry <= ENTRIES;
    in_table && entry * (less_one - 1) < SPREAD
}
