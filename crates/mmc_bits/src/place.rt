// All levels at one place.
ghost use Rattle.std.specs.Prelude.{◌≡◌, List, ℕ, ◌*◌, ◌<◌};
ghost use Rattle.std.specs.Int.Bits.{bit_and, bit_xor};
ghost use Rattle.mmc_bits.specs.Levels.{levels};
ghost use Rattle.mmc_bits.specs.Inner.Steps.{Entered, Passed, Last, Ended, Before, After};

use crate::Counters;
use crate::speakers::speakers;
use crate::step::{Capped, last_step, level_step};
use verdicts::Masks;

// The levels 1 to `top` at place i of a history, each in its own part of the counters: the bit is counted. `recent` is the last 16 bits. Returns
// the mask of the levels that had more zeros than ones.
fn short_levels(counters: &mut Counters, recent: usize, bit: usize, top: usize) -> u32
    ghost here: { List ℕ × ℕ × ℕ }
    requires { Entered here.0 here.1 recent bit top counters.old × (top < levels) }
    ensures { Passed here.0 here.1 top counters.old counters.new result }
{
    let mut zeros: u32 = 0;
    for l in 0..top {
        let w = 2usize << l;
        let start = w * 2 - 4;
        let end = w * 4 - 4;
        let at = (recent & (w - 1)) * 2;
        zeros += level_step(&mut counters[start..end], at, bit) << l;
    }
    zeros
}

// Level 16, after the others: its contexts are 2 to the power 16.
fn last_level(counters: &mut Counters, recent: usize, bit: usize, stored: usize) -> Capped
    ghost here: { List ℕ × ℕ × ℕ }
    requires { Last here.0 here.1 recent bit stored counters.old }
    ensures { Ended here.0 here.1 result.zero result.stored counters.old counters.new }
{
    last_step(&mut counters[131_068..262_140], recent * 2, bit, stored)
}

// The verdicts where `bit` comes: a level that speaks is right about a 0 where it has more zeros, and about a 1 where it has not.
fn judged(zeros: u32, speaking: u32, bit: usize) -> Masks
    requires { bit < 2 }
    ensures { (result.rights ≡ bit_and (bit_xor zeros (65535 * bit)) speaking) × (result.speaking ≡ speaking) }
{
    let rights = (zeros ^ (65535 * bit as u32)) & speaking;
    Masks { rights, speaking }
}

// The verdicts on the levels at a place, and how many pairs of level 16 have counters after it.
#[derive(Clone, Copy)]
pub struct Placed {
    pub masks: Masks,
    pub stored: usize,
}

// All levels at place i: who speaks is looked up before the bit is counted. `stored` is how many pairs of level 16 have counters.
pub fn place(counters: &mut Counters, i: usize, recent: usize, bit: usize, stored: usize) -> Placed
    ghost here: { List ℕ × ℕ × ℕ }
    requires before { Before here.0 i recent bit stored counters.old }
    requires here { (here.1 ≡ i) × (here.2 ≡ bit) }
    ensures { After here.0 i result.stored result.masks counters.old counters.new }
{
    if i < 16 {
        let speaking = speakers(counters, recent, i);
        let zeros = short_levels(counters, recent, bit, i);
        let masks = judged(zeros, speaking, bit);
        return Placed { masks, stored };
    }
    let speaking = speakers(counters, recent, 16);
    let zeros = short_levels(counters, recent, bit, 15);
    let last = last_level(counters, recent, bit, stored);
    let masks = judged(last.zero * 32768 + zeros, speaking, bit);
    Placed {
        masks,
        stored: last.stored,
    }
}
