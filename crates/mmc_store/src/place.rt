// All levels at one place.
ghost use Rattle.std.specs.Prelude.{◌≡◌, ◌+◌, List, ℕ};
ghost use Rattle.mmc_bits.specs.Levels.{levels, cap};
ghost use Rattle.mmc_store.specs.Inner.Places.{Stands, Said, Place};

use crate::Store;
use crate::level::count_level;
use crate::look::say;

// Writes what each level says of `place` to `guesses`, and counts the place at each: a level speaks before it counts. `nodes` has the numbers of the
// place's contexts, and is left with those of the next place's. A context that is missing has no longer one: those levels are silent and at their caps.
pub fn at_place(
    s: &[u8],
    space: &mut Store,
    entries: &mut [usize; 16],
    nodes: &mut [usize; 17],
    guesses: &mut [Option<u8>; 16],
    place: usize,
)
    ghost here: { List ℕ × ℕ }
    requires stands { Stands levels cap s.now place entries.old nodes.old space.old × Place s.now place }
    requires here { (here.0 ≡ s.now) × (here.1 ≡ place) }
    ensures stands { Stands levels cap s.now (place + 1) entries.new nodes.new space.new }
    ensures said { Said levels cap s.now place guesses.new }
{
    *guesses = [None; 16];
    let top = place.min(16);
    let x = s[place] as usize;
    let mut carry = x + 1;
    let mut found = true;
    for l in 0..top {
        let c = nodes[l];
        nodes[l] = carry;
        if c == 0 {
            return;
        }
        found = say(space, guesses, l, c, found);
        carry = count_level(space, entries, l, c, x, found, carry);
    }
    nodes[top] = carry;
}
