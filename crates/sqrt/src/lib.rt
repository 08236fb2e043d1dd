// Kept: the root is found here in whole numbers and not by std's f64::sqrt, an operation of the machine that would be trusted anew; document 01 names this form.
// The square root of a double: "rounded correctly for every double (negative or not a number: not a number;
// negative zero and infinity: itself). Subnormals are scaled by the position of the leading one of the fraction."
#![tactic(auto)]

ghost use Rattle.std.specs.Prelude.{◌≡◌, ◌+◌, ◌*◌, ◌^◌, ◌≤◌, ◌<◌};
ghost use Rattle.std.specs.Float.{binary64};
ghost use Rattle.sqrt.specs.Root.{root};
ghost use Rattle.sqrt.specs.Sqrt.{sqrt_of};
ghost use Rattle.sqrt.specs.Inner.Steps.{Rooted, units_of};

use crate::guess::guess;
use crate::nearest::nearest;
use crate::significand::Significand;
pub use crate::significand::shift_of;

pub mod guess;
pub mod nearest;
pub mod significand;

// The root of m * 2 ^ 54, of 54 binary digits, one a turn. After each turn q is the root of the digits taken so far,
// rem what is left of them, and w the digits of m that are still to be taken.
fn digits(m: u64) -> u64
    requires { m < 2 ^ 54 }
    ensures { result ≡ root (m * 2 ^ 54) }
{
    let mut w = m;
    let mut q: u64 = 0;
    let mut rem: u64 = 0;
    for _ in 0..54u64 {
        rem = rem * 4 + w / 0x10_0000_0000_0000;
        w = w % 0x10_0000_0000_0000 * 4;
        q *= 2;
        if q * 2 < rem {
            rem -= q * 2 + 1;
            q += 1;
        }
    }
    q
}

// The pattern of the root of a significand's number, rounded: its 53 digits, and the exponent's field. The number is
// digits * 2^e, and its root the root of as many, in units of the smallest double. An odd exponent gives one of its twos
// to the digits. A root that rounds up to 2^53 carries into the field.
fn rooted(s: Significand) -> u64
    ensures { Rooted (s.digits * 2 ^ (s.place + 1022)) result }
{
    let q = s.digits;
    let e = s.place + 1022;
    let odd = e % 2;
    (e / 2 - 26) * 0x10_0000_0000_0000 + nearest(q * (1 + odd), guess(q, odd == 1))
}

// From the pattern of a finite number above 0 to the pattern of its root.
fn positive(bits: u64) -> u64
    requires { (0 < bits) × (bits < 0x7ff0_0000_0000_0000) }
    ensures { Rooted (units_of bits * 2 ^ 1074) result }
{
    rooted(Significand::of_pattern(bits))
}

// √x, rounded to the nearest double.
pub fn sqrt(x: f64) -> f64
    ensures { result ≡ sqrt_of binary64 x }
{
    if x < 0.0 {
        return f64::NAN;
    }
    if x == 0.0 {
        return x; // with its sign
    }
    if !x.is_finite() {
        return x; // not a number, or the infinity
    }
    f64::from_bits(positive(x.to_bits()))
}
