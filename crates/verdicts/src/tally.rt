// The counts by the winner's verdict.
ghost use Rattle.std.specs.Prelude.{◌≡◌};
ghost use Rattle.race.specs.Inner.Held.{tallied};
ghost use Rattle.verdicts.specs.Inner.Steps.{Countable};
ghost use Rattle.verdicts.specs.Inner.Told.{verdict_in};

use crate::Masks;
use race::Tally;

// A hit adds to C and to the run, a miss ends the run, and silence does neither.
pub fn count_masks(t: Tally, masks: Masks, winner: usize) -> Tally
    requires { Countable t masks winner }
    ensures { result ≡ tallied (verdict_in masks winner) t }
{
    let hit = ((masks.rights >> winner) & 1) as u64;
    let spoke = ((masks.speaking >> winner) & 1) as u64;
    let missed = spoke - hit;
    let run = (t.run + hit) * (1 - missed);
    Tally {
        hits: t.hits + hit,
        run,
        longest: t.longest.max(run),
    }
}
