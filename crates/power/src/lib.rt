// A whole power of a double. "Whole-number powers come from halving the exponent."
#![tactic(auto)]

ghost use Rattle.std.specs.Prelude.{◌≡◌};
ghost use Rattle.power.specs.Power.{power_of, times_power};

// y * x ^ n: x goes into the product where n is odd, and then the square of x to half of n. Each product is rounded.
#[tactic(auto, using(crate::proofs::Halves::times_none, crate::proofs::Halves::times_odd, crate::proofs::Halves::times_even))]
fn times_power(y: f64, x: f64, n: u64) -> f64
    ensures { result ≡ times_power y x n }
{
    if n == 0 {
        return y;
    }
    if n % 2 == 1 {
        return times_power(y * x, x * x, n / 2);
    }
    times_power(y, x * x, n / 2)
}

// x ^ n.
// Kept: std's powi does the same for an i32, and the n of the C interface is any u64.
pub fn power(x: f64, n: u64) -> f64
    ensures { result ≡ power_of x n }
{
    times_power(1.0, x, n)
}
