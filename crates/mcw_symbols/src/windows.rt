// What the windows count: for each symbol twice how often it stands in each, and its latest place, which is the same for all.
ghost use Rattle.std.specs.Prelude.{◌≡◌, ◌+◌, ◌*◌, ◌<◌, length};
ghost use Rattle.mcw_symbols.specs.Inner.Windows.{Bytes, Counted, Enterable, Enters, Gone, Leavable, Leaves, Roomy, ones, starts};

use mcw_bits::{FIRST, FOURTH, SECOND, THIRD};

// The oldest sample leaves the window of `size` samples if it is full. `unit` is 1 in the window's lane; returns the sample in that lane, or 256.
fn leave(cnt: &mut [u64; 256], s: &[u8], i: usize, size: usize, unit: u64) -> u64
    requires { Leavable cnt.old s.now i size unit }
    ensures { Leaves cnt.old s.now i size unit cnt.new result }
{
    if i < size {
        return 256 * unit;
    }
    let d = usize::from(s[i - size]);
    cnt[d] = cnt[d] - 2 * unit;
    d as u64 * unit
}

// The oldest sample leaves each window that is full.
pub fn leave_all(cnt: &mut [u64; 256], s: &[u8], i: usize) -> u64
    requires { (i < length s.now) × Bytes s.now × Counted s.now (starts i) i cnt.old }
    ensures { Counted s.now (starts (i + 1)) i cnt.new × Gone s.now i result }
{
    let first = leave(cnt, s, i, FIRST, 1);
    let second = leave(cnt, s, i, SECOND, 0x1_0000);
    let third = leave(cnt, s, i, THIRD, 0x1_0000_0000);
    let fourth = leave(cnt, s, i, FOURTH, 0x1_0000_0000_0000);
    first + second + third + fourth
}

// Twice one more in each lane.
fn one_more(n: u64) -> u64
    requires { Roomy n }
    ensures { result ≡ n + 2 * ones }
{
    n + 0x2_0002_0002_0002
}

// The keys of a symbol that is the latest of all and stands n times, doubled.
fn key_of(n: u64) -> u64
    requires { Roomy n }
    ensures { result ≡ n + ones }
{
    n + 0x1_0001_0001_0001
}

// The sample x of place i comes into every window; returns its keys.
pub fn enter(cnt: &mut [u64; 256], latest: &mut [u64; 256], x: usize, i: usize) -> u64
    requires { Enterable cnt.old latest.old x i }
    ensures { Enters cnt.old latest.old x i cnt.new latest.new result }
{
    let n = one_more(cnt[x]);
    cnt[x] = n;
    latest[x] = i as u64 + 1;
    key_of(n)
}
