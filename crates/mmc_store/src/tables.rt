// The tables of words in the lent numbers: table l has the words of l + 1 symbols. They are the contexts of level l + 1, and
// the pairs of level l.
ghost use Rattle.std.specs.Prelude.{◌≡◌, true, ◌+◌, ◌<◌, ◌≤◌};
ghost use Rattle.table.specs.Inner.Table as T;
ghost use Rattle.table.specs.Inner.Table.{Table, room, key_limit, entry_of, grown, valued};
ghost use Rattle.capture.specs.Limit.{symbol_limit};
ghost use Rattle.mmc_store.specs.Inner.Places.{part, tables_most, Changed, Tallied};

use crate::Store;
use table::{SIZE, make, put, value};

pub fn value_in(space: &Store, t: usize, j: usize, e: usize) -> usize
    requires { (t < tables_most) × (j < 2) × (e ≤ room) }
    ensures { (result ≡ T.value (part t space.now) j e) × (result < 4294967296) }
{
    let a = t * SIZE;
    let b = a + SIZE;
    value(&space[a..b], j, e)
}

pub fn make_in(space: &mut Store, t: usize, key: usize) -> usize
    requires { (t < tables_most) × Table (part t space.old) × (key < key_limit) }
    ensures changed { Changed t space.old space.new (grown (part t space.old) key) }
    ensures value { result ≡ entry_of (part t space.new) key }
{
    let a = t * SIZE;
    let b = a + SIZE;
    make(&mut space[a..b], key)
}

fn put_in(space: &mut Store, t: usize, j: usize, e: usize, v: usize)
    requires { (t < tables_most) × (j < 2) × (e ≤ room) × (v < 4294967296) }
    ensures { Changed t space.old space.new (valued (part t space.old) j e v) }
{
    let a = t * SIZE;
    let b = a + SIZE;
    put(&mut space[a..b], j, e, v)
}

// Counts x once more after the context c of level l + 1. p is their pair, which was counted n times. The best of a context is the largest of its
// counts, with the symbol as the last digit by 256: "The largest count wins, a tie going to the larger symbol."
pub fn tally(space: &mut Store, l: usize, c: usize, x: usize, p: usize, n: usize)
    requires { (l + 1 < tables_most) × (c ≤ room) × (x < 256) × (p ≤ room) × (n + 1 < symbol_limit) }
    ensures { Tallied l c x p n space.old space.new }
{
    put_in(space, l + 1, 0, p, n + 1);
    let old = value_in(space, l, 1, c);
    put_in(space, l, 1, c, old.max((n + 1) * 256 + x));
}
