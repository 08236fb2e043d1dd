// Whether the windows say the symbol that came. A window whose candidate is sure, or that cannot say it, is not searched.
ghost use Rattle.std.specs.Prelude.{◌≡◌, Bool, ℕ, ◌<◌, get_or};
ghost use Rattle.lanes.specs.Inner.Lanes.{lane, marked, Low};
ghost use Rattle.mcw_symbols.specs.Inner.Ask.{Askable, Asks, Hears, LowAll, Taking, needs};

use crate::Candidates;
use crate::search::search;
use lanes::compare::{at_least, same};

// The candidates, a mark where the candidate is the symbol, and a mark where the window says it.
#[derive(Clone, Copy)]
pub struct Heard {
    pub candidates: Candidates,
    pub alike: u64,
    pub right: u64,
}

// The windows to search before it is known whether they say x, which they count n times, doubled.
fn needing(c: Candidates, x: u64, n: u64, taking: u64) -> u64
    requires { LowAll c × (Low x × Low n) }
    ensures { (t : ℕ → Bool) → Taking taking t → (j : ℕ) → j < 4 → lane result j ≡ marked (needs c x n j (t j)) }
{
    (at_least(n, c.keys) | same(x, c.symbols)) & at_least(c.bounds, c.keys) & taking
}

// What candidates that need no search tell of x.
fn hear(c: Candidates, x: u64, taking: u64) -> Heard
    requires { LowAll c × Low x }
    ensures { Hears c x taking result }
{
    let alike = same(x, c.symbols);
    let unsure = at_least(c.bounds, c.keys);
    let right = (alike ^ (alike & unsure)) & taking;
    Heard {
        candidates: c,
        alike,
        right,
    }
}

// What the windows that take part tell of x, which is in each lane of xs.
pub fn ask(
    c: Candidates,
    x: usize,
    xs: u64,
    taking: u64,
    cnt: &[u64; 256],
    latest: &[u64; 256],
    k: usize,
) -> Heard
    requires { Askable cnt.now latest.now k c x xs }
    ensures { Asks cnt.now latest.now k c xs (get_or cnt.now x 0) taking result }
{
    let need = needing(c, xs, cnt[x], taking);
    if need == 0 {
        return hear(c, xs, taking);
    }
    let found = search(c, need, x, cnt, latest, k);
    hear(found, xs, taking)
}
