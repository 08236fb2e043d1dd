// The ones of each window. Every window has an odd size, so there is no tie.
ghost use Rattle.std.specs.Prelude.{◌≡◌, ◌+◌, ◌-◌, ◌<◌};
ghost use Rattle.mcw_bits.specs.Inner.Ones.{AllRoll, Rolled, Rolls, majority_of, past_in};

use crate::WINDOWS;

// The commonest bit of a window of size w with `ones` ones.
pub fn majority(ones: usize, w: usize) -> u16
    requires { ones < 4611686018427387904 }
    ensures { result ≡ majority_of ones w }
{
    if w < ones + ones { 1 } else { 0 }
}

// The ones of a window of size w after place i, where x comes. The ring has the latest 4,096 bits, bit i at i % 4096, and 0 where none was yet.
fn roll(ones: usize, ring: &[u8; 4096], i: usize, w: usize, x: u8) -> usize
    requires { Rolls ones ring.now i w x }
    ensures { result ≡ ones + x - past_in ring.now i w }
{
    ones + usize::from(x) - usize::from(ring[(i + 4096 - w) % 4096])
}

#[tactic(auto, using(crate::proofs::Sayings::rolled_start, crate::proofs::Sayings::rolled_next))]
pub fn roll_all(ones: &mut [usize; 4], ring: &[u8; 4096], i: usize, x: u8)
    requires { AllRoll ones.old ring.now i x }
    ensures { Rolled ones.old ring.now i x 4 ones.new }
{
    for j in 0..4 {
        ones[j] = roll(ones[j], ring, i, WINDOWS[j], x);
    }
}
