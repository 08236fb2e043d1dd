// One level counts one place.
ghost use Rattle.std.specs.Prelude.{List, ℕ, ◌<◌};
ghost use Rattle.mmc_bits.specs.Levels.{levels, cap};
ghost use Rattle.mmc_store.specs.Inner.Places.{Takes, Ready, Through};

use crate::Store;
use crate::tables::{make_in, tally, value_in};

// How many entries a level makes.
const CAP: usize = 100_000;

// Whether level l + 1 counts a pair that it has counted n times, and its entry number then: "below the cap it adds one to the pair and one to the
// entry number without asking whether the pair is new; at the cap nothing is counted".
#[tactic(auto, using(crate::specs::Inner::Places::new_entry))]
fn takes(entries: &mut [usize; 16], l: usize, found: bool, n: usize) -> bool
    requires { l < levels }
    ensures { Takes cap l found n entries.old entries.new result }
{
    if found && 0 < n {
        return true;
    }
    let e = entries[l];
    if e < CAP {
        entries[l] = e + 1;
        return true;
    }
    false
}

// Counts the place of the symbol x, a place of a sequence, at level l + 1, whose context there has the number c, and returns the pair's number, which is that of the
// context of level l + 2 at the next place. `carry` is the number of the pair's newer symbols: where they are no word, neither is the pair. Else
// a missing pair is made, if its table has room: where it is not counted it is only a way to longer words.
pub fn count_level(
    space: &mut Store,
    entries: &mut [usize; 16],
    l: usize,
    c: usize,
    x: usize,
    found: bool,
    carry: usize,
) -> usize
    ghost here: { List ℕ × ℕ }
    requires { Ready levels cap here.0 here.1 l c x found carry entries.old space.old }
    ensures { Through levels cap here.0 here.1 l result space.old entries.new space.new }
{
    if carry == 0 {
        return 0;
    }
    let p = make_in(space, l + 1, c * 256 + x);
    if p == 0 {
        return 0;
    }
    let n = value_in(space, l + 1, 0, p);
    if !takes(entries, l, found, n) {
        return p;
    }
    tally(space, l, c, x, p, n);
    p
}
