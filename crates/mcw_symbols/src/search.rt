// The commonest symbol of a window, found among all.
ghost use Rattle.std.specs.Prelude.{◌≡◌, ℕ, ◌*◌, ◌^◌, ◌<◌};
ghost use Rattle.lanes.specs.Inner.Lanes.{lane, Begins};
ghost use Rattle.mcw_symbols.specs.Inner.Search.{Finds, Searchable, Searched, Sets};

use crate::Candidates;
use lanes::part::{lane_at, put};

// The part of w in the one lane that the mask has, where it stands.
fn masked(w: u64, mask: u64) -> u64
    ensures { (q : ℕ) → mask ≡ 65535 * 2 ^ (16 * q) → result ≡ lane w q * 2 ^ (16 * q) }
{
    w & mask
}

// Of the k symbols the one that stands most often in the window of the mask's lane, of those the one seen latest. x is where the search begins.
fn favourite(cnt: &[u64; 256], latest: &[u64; 256], k: usize, mask: u64, x: usize) -> usize
    requires { Searchable cnt.now latest.now k x }
    ensures { Finds cnt.now latest.now k mask result }
{
    let mut b = x;
    let mut most = masked(cnt[x], mask);
    let mut y: usize = 0;
    while y < k {
        let v = masked(cnt[y], mask);
        if most <= v {
            if most < v {
                b = y;
            } else {
                if latest[b] < latest[y] {
                    b = y;
                }
            }
            most = v;
        }
        y += 1;
    }
    b
}

// The favourite becomes the candidate of the window whose lane begins at bit `at`.
fn settle(
    c: Candidates,
    at: u32,
    x: usize,
    cnt: &[u64; 256],
    latest: &[u64; 256],
    k: usize,
) -> Candidates
    requires { Searchable cnt.now latest.now k x × Begins at }
    ensures { Sets cnt.now latest.now k c at result }
{
    let b = favourite(cnt, latest, k, 0xffff << at, x);
    let n = lane_at(cnt[b], at);
    Candidates {
        symbols: put(c.symbols, at, b as u64),
        keys: put(c.keys, at, n + 1),
        bounds: put(c.bounds, at, n),
    }
}

// The windows that `need` marks are searched.
pub fn search(
    c: Candidates,
    need: u64,
    x: usize,
    cnt: &[u64; 256],
    latest: &[u64; 256],
    k: usize,
) -> Candidates
    requires { Searchable cnt.now latest.now k x }
    ensures { Searched cnt.now latest.now k need c result }
{
    let mut r = c;
    let mut at: u32 = 0;
    while at < 64 {
        if lane_at(need, at) != 0 {
            r = settle(r, at, x, cnt, latest, k);
        }
        at += 16;
    }
    r
}
