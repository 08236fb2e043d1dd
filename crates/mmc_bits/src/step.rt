// One level at one place, on its own part of the counters.
ghost use Rattle.std.specs.Prelude.{◌≡◌, length, get_or, set, ◌+◌, ◌<◌};
ghost use Rattle.mmc_bits.specs.Levels.{cap};
ghost use Rattle.mmc_bits.specs.Inner.Steps.{counter_end, lean, bumped, kept};

use crate::Counter;

// How many distinct pairs level 16 counts.
pub const CAP: usize = 100_000;

// 1 where the zeros are more than the ones: there a level that speaks says 0, and else 1.
#[tactic(auto, using(crate::proofs::Cases::lean_byte))]
fn look(zeros: Counter, ones: Counter) -> u32
    ensures { result ≡ lean zeros ones }
{
    (ones < zeros) as u32
}

// Looks at the two counters of a context, which stand at `at`, and counts the bit.
pub fn level_step(part: &mut [Counter], at: usize, bit: usize) -> u32
    requires { (at + 1 < length part.old) × (bit < 2) × (get_or part.old (at + bit) 0 + 1 < counter_end) }
    ensures value { result ≡ lean (get_or part.old at 0) (get_or part.old (at + 1) 0) }
    ensures part_after { part.new ≡ set part.old (at + bit) (get_or part.old (at + bit) 0 + 1) }
{
    let zero = look(part[at], part[at + 1]);
    let k = at + bit;
    part[k] += 1;
    zero
}

// What a look at two counters told, and how many pairs have counters.
#[derive(Clone, Copy)]
pub struct Capped {
    pub zero: u32,
    pub stored: usize,
}

// The same where only the first CAP distinct pairs have counters, of which `stored` are taken.
pub fn last_step(part: &mut [Counter], at: usize, bit: usize, stored: usize) -> Capped
    requires { (at + 1 < length part.old) × (bit < 2) × (get_or part.old (at + bit) 0 + 1 < counter_end) }
    ensures zero_value { result.zero ≡ lean (get_or part.old at 0) (get_or part.old (at + 1) 0) }
    ensures stored_value { result.stored ≡ kept cap (get_or part.old (at + bit) 0) stored }
    ensures part_after { part.new ≡ set part.old (at + bit) (bumped cap (get_or part.old (at + bit) 0) stored) }
{
    let zero = look(part[at], part[at + 1]);
    let k = at + bit;
    let mine = part[k];
    if mine == 0 {
        if stored < CAP {
            part[k] = 1;
            return Capped {
                zero,
                stored: stored + 1,
            };
        }
        return Capped { zero, stored };
    }
    part[k] = mine + 1;
    Capped { zero, stored }
}
