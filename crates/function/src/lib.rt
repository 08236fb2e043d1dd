// The function whose root p_local is (Rust: prediction_estimate_function).
#![tactic(auto)]

ghost use Rattle.std.specs.Prelude.{◌≡◌};
ghost use Rattle.answer.specs.Results.{value_of};
ghost use Rattle.function.specs.Function.{at_fixed_point, fixed_point, function_of, updated, value_at};

use answer::Refusal;
use counts::possible::Runs;

// The most updates of x.
const UPDATES: u64 = 66;

// One update of x: 1 + a * x^(r+1), where a is q * p^r.
fn update(a: f64, r: u32, x: f64) -> f64
    ensures { result ≡ updated a r x }
{
    1.0 + a * power::power(x, u64::from(r) + 1)
}

// x updated from 1 on until it stops changing, at most 66 times.
fn fixed_point(p: f64, r: u32) -> f64
    ensures { result ≡ fixed_point p r }
{
    let a = (1.0 - p) * power::power(p, u64::from(r));
    let mut x = 1.0;
    let mut xlast = 0.0;
    for _ in 0..UPDATES {
        if !(x - xlast > f64::EPSILON * x) {
            break;
        }
        xlast = x;
        x = update(a, r, x);
    }
    x
}

// ln (1 - p x) - ln ((r + 1 - r x) q) - (N + 1) ln x.
fn at_fixed_point(p: f64, x: f64, r: u32, n: u32) -> f64
    ensures { result ≡ at_fixed_point p x r n }
{
    let q = 1.0 - p;
    let rf = f64::from(r);
    let nf = f64::from(n);
    ln::ln(1.0 - p * x) - ln::ln((rf + 1.0 - rf * x) * q) - (nf + 1.0) * ln::ln(x)
}

// The value at p, whatever p is.
pub fn value_at(p: f64, runs: Runs) -> f64
    ensures { result ≡ value_at p runs.longest runs.n }
{
    let r = runs.longest as u32 + 1;
    let x = fixed_point(p, r);
    at_fixed_point(p, x, r, runs.n as u32)
}

// The value at a p from 1/256 up to but not 1.
pub fn prediction_estimate_function(p: f64, max_run_len: u64, n: u64) -> Result<f64, Refusal>
    ensures { value_of result ≡ function_of p max_run_len n }
{
    let runs = Runs::new(max_run_len, n)?;
    if counts::is_outside(p) {
        return Err(Refusal::OutOfRange);
    }
    Ok(value_at(p, runs))
}
