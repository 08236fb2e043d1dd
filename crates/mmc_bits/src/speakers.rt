// Which levels speak at a here.
ghost use Rattle.std.specs.Prelude.{List, ℕ, ◌≤◌};
ghost use Rattle.mmc_bits.specs.Levels.{levels};
ghost use Rattle.mmc_bits.specs.Inner.Steps.{Entered, Speaking};

use crate::Counters;

// The levels 1 to `top` that speak, as a mask, before place i of a history is counted. `recent` is its last 16 bits. A context has no more counts
// than a shorter one, so the longest level that has a count is searched for, and all shorter ones speak too; it is mostly `top` itself.
pub fn speakers(counters: &Counters, recent: usize, top: usize) -> u32
    ghost here: { List ℕ × ℕ × ℕ }
    requires { Entered here.0 here.1 recent here.2 top counters.now × (top ≤ levels) }
    ensures { Speaking here.0 here.1 top result }
{
    for shorter in (0..top).rev() {
        let w = 2usize << shorter;
        let at = w * 2 - 4 + (recent & (w - 1)) * 2;
        if counters[at] | counters[at + 1] != 0 {
            return (w - 1) as u32;
        }
    }
    0
}
