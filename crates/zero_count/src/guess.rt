// A guess at the root's digits, by 0.01^(1/n) = e^-t with t = ln 100 / n. Nothing is promised of how near it is: the
// digits are found from any guess, in less time from a near one.
ghost use Rattle.std.specs.Prelude.{◌^◌, ◌<◌};
ghost use Rattle.zero_count.specs.ZeroCount.{places};

use crate::WHOLE;

// 1 - e^-t by four terms of its series.
fn short_series(t: f64) -> f64 {
    t * (1.0 - t * (0.5 - t * (0.16666666666666666 - t * 0.041666666666666664)))
}

// 1 - e^-t by nine terms.
fn long_series(t: f64) -> f64 {
    let end = 0.0001984126984126984 - t * (0.0000248015873015873 - t * 0.0000027557319223985893);
    let middle = 0.041666666666666664
        - t * (0.008333333333333333 - t * (0.001388888888888889 - t * end));
    t * (1.0 - t * (0.5 - t * (0.16666666666666666 - t * middle)))
}

// 1 - (1 - y)^64.
fn raised(y: f64) -> f64 {
    let mut y = y;
    for _ in 0..6u32 {
        y *= 2.0 - y;
    }
    y
}

// 1 - 0.01^(1/n), by as many terms as n calls for.
fn complement(n: u64) -> f64 {
    let t = 4.605170185988092 / std::num::nearest_u64_to_f64(n);
    if n < 64 {
        raised(long_series(t / 64.0))
    } else if n < 4096 {
        long_series(t)
    } else {
        short_series(t)
    }
}

// A guess at 2^52 * 0.01^(1/n).
pub fn guess(n: u64) -> u64
    ensures { (0 < result) × (result < 2 ^ places) }
{
    std::num::saturating_f64_to_u64((1.0 - complement(n)) * 4503599627370496.0).clamp(1, WHOLE - 1)
}
