// The upper bound p_global' where no prediction was right: 1 - 0.01^(1/N), by arithmetic on `f64` alone. The root of
// 0.01 is found to 52 binary digits, and is within 3 * 2 ^ -52 of the exact one.
#![tactic(auto)]

ghost use Rattle.std.specs.Prelude.{◌≡◌, ◌^◌, ◌<◌, ◌≤◌};
ghost use Rattle.zero_count.specs.Inner.Bounds.{Encloses};
ghost use Rattle.zero_count.specs.ZeroCount.{fraction, low_enough, places, root_digits, zero_count_bound};

use crate::guess::guess;
use std::ops::Range;

pub mod guess;

// 1 is so many 2^-52.
const WHOLE: u64 = 4_503_599_627_370_496;

// m / 2^52.
fn part(m: u64) -> f64
    requires { m ≤ 2 ^ places }
    ensures { result ≡ fraction places m }
{
    (m as f64) / 4503599627370496.0
}

// Whether the n-th power of m / 2^52 is at most 0.01.
fn low_enough(m: u64, n: u64) -> bool
    requires { m ≤ 2 ^ places }
    ensures { result ≡ low_enough places n m }
{
    power::power(part(m), n) <= 0.01
}

// What the root's digits lie in, about a guess: one number alone where the guess is the digits, or one more.
fn enclose(guess: u64, n: u64) -> Range<u64>
    requires { (0 < guess) × (guess < 2 ^ places) }
    ensures { Encloses places n result.start result.end }
{
    if low_enough(guess, n) {
        if low_enough(guess + 1, n) {
            return guess..WHOLE;
        }
        return guess..guess + 1;
    }
    if low_enough(guess - 1, n) {
        return guess - 1..guess;
    }
    0..guess
}

// The root's digits, by halving what they lie in.
fn narrow(bounds: Range<u64>, n: u64) -> u64
    requires { Encloses places n bounds.start bounds.end }
    ensures { result ≡ root_digits places n }
{
    let mut low = bounds.start;
    let mut high = bounds.end;
    // Kept: no count of an index, and std's partition_point asks for a slice, which these numbers do not lie in.
    while low + 1 < high {
        let middle = (low + high) / 2;
        if low_enough(middle, n) {
            low = middle;
        } else {
            high = middle;
        }
    }
    low
}

// 1 - 0.01^(1/n), and 1.0 for n = 0.
pub fn zero_count_bound(n: u64) -> f64
    ensures { result ≡ zero_count_bound n }
{
    if n == 0 {
        return 1.0;
    }
    let bounds = enclose(guess(n), n);
    part(WHOLE - narrow(bounds, n))
}
