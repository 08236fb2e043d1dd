// What a level says of a place.
ghost use Rattle.std.specs.Prelude.{◌≡◌, ◌<◌, ◌≤◌};
ghost use Rattle.table.specs.Inner.Table as T;
ghost use Rattle.table.specs.Inner.Table.{room};
ghost use Rattle.mmc_bits.specs.Levels.{levels};
ghost use Rattle.mmc_store.specs.Inner.Words.{bests};
ghost use Rattle.mmc_store.specs.Inner.Answers.{context_of};
ghost use Rattle.mmc_store.specs.Inner.Places.{part, tables_most, Says};

use crate::Store;
use crate::tables::value_in;

// The predicted symbol of the context c of level l + 1, if it is present: a word of which nothing was counted is only a way to longer ones.
#[tactic(auto, using(crate::proofs::Saying::answers_absent))]
fn lookup(space: &Store, l: usize, c: usize) -> Option<u8>
    requires { (l < tables_most) × (c ≤ room) }
    ensures { result ≡ context_of (T.value (part l space.now) bests c) }
{
    let best = value_in(space, l, 1, c);
    if best == 0 {
        return None;
    }
    Some((best % 256) as u8)
}

// What level l + 1 says is written to `guesses`, where its context c is present and every shorter one was `found`. Whether it is, is returned.
pub fn say(space: &Store, guesses: &mut [Option<u8>; 16], l: usize, c: usize, found: bool) -> bool
    requires { (l < levels) × (c ≤ room) }
    ensures { Says (T.value (part l space.now) bests c) l found guesses.old guesses.new result }
{
    if !found {
        return false;
    }
    let symbol = lookup(space, l, c);
    if symbol.is_none() {
        return false;
    }
    guesses[l] = symbol;
    true
}
