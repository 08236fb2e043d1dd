// Real arithmetic.
ghost use Rattle.std.specs.Prelude.{◌≡◌};
ghost use Rattle.std.specs.Float.{binary64};
ghost use Rattle.closeness.specs.Close.{rel_epsilon_equal};
ghost use Rattle.entropy.specs.MinEntropy.{min_entropy_of};
ghost use Rattle.ln.specs.Ln.{ln_of};
ghost use Rattle.power.specs.Power.{power_of};
ghost use Rattle.sqrt.specs.Sqrt.{sqrt_of};

use answer::Value;

// Whether a and b are close, absolutely, relatively or by units in the last place.
#[unsafe(no_mangle)]
pub extern "C" fn abutfern_rel_epsilon_equal(
    a: f64,
    b: f64,
    max_abs_factor: f64,
    max_rel_factor: f64,
    max_ulp: u64,
) -> bool
    ensures { result ≡ rel_epsilon_equal a b max_abs_factor max_rel_factor max_ulp }
{
    closeness::rel_epsilon_equal(a, b, max_abs_factor, max_rel_factor, max_ulp)
}

// The square root of x, rounded correctly.
#[unsafe(no_mangle)]
pub extern "C" fn abutfern_sqrt(x: f64) -> f64
    ensures { result ≡ sqrt_of binary64 x }
{
    sqrt::sqrt(x)
}

// x to the power n, by halving the exponent.
#[unsafe(no_mangle)]
pub extern "C" fn abutfern_power(x: f64, n: u64) -> f64
    ensures { result ≡ power_of x n }
{
    power::power(x, n)
}

// The natural logarithm of x.
#[unsafe(no_mangle)]
pub extern "C" fn abutfern_ln(x: f64) -> f64
    ensures { result ≡ ln_of x }
{
    ln::ln(x)
}

// The min-entropy of a probability from 1/256 to 1.
#[unsafe(no_mangle)]
pub extern "C" fn abutfern_min_entropy(p: f64) -> Value
    ensures { result ≡ min_entropy_of p }
{
    entropy::min_entropy(p).into()
}
