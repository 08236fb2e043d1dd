// The estimate from the counts (Rust: prediction_estimate).
ghost use Rattle.std.specs.Prelude.{◌≡◌, cond, None, Some, true, T};
ghost use Rattle.std.specs.Float.{binary64};
ghost use Rattle.std.specs.Float.Ieee.{le, lt};
ghost use Rattle.answer.specs.Results.{answer_of};
ghost use Rattle.bisect.specs.Bisection.{local_rounds, local_value};
ghost use Rattle.rounding.specs.Doubles.{◌⊕◌, ◌⊗◌, one, zero};
ghost use Rattle.sqrt.specs.Sqrt.{sqrt_of};
ghost use Rattle.counts.specs.Doubles.{at_most_one, z995};
ghost use Rattle.prediction.specs.Estimate.{can_raise, estimate_of, estimated_of, floor_from, p_global, prime_of, upper_bound};

use answer::{Estimate, Estimated, Refusal, Solution};
use bisect::{log_alpha, solve};
use counts::doubles::{at_most_one, larger_of};
use counts::possible::{Counts, Runs};
use function::value_at;

// The 0.995 quantile of the normal distribution.
const Z_995: f64 = 2.575_829_303_548_901;

// p_local where it is not solved.
const UNSOLVED: Solution = Solution {
    rounds: 0,
    value: -1.0,
};

// p_global: C / N, and 0 for N = 0.
fn hit_rate(counted: Counts) -> f64
    ensures { result ≡ p_global counted.c counted.n }
{
    if counted.n == 0 {
        return 0.0;
    }
    (counted.c as f64) / (counted.n as f64)
}

// Whether p + z √v is 1 at least, told without the root: w is a little over (1 - p) / z. No is no answer.
fn reaches_one(p: f64, v: f64) -> bool
    requires { (lt zero p ≡ true) × T (le p one) }
    ensures { result ≡ true → at_most_one (p ⊕ z995 ⊗ sqrt_of binary64 v) ≡ one }
{
    let w = (1.0 - p) * 0.388_224_483_129_817_33; // 1 / z times 1 + 2^-40
    w * w < v && p + Z_995 * w >= 1.0
}

// The upper end of the 99 % confidence interval of p, at most 1.
fn upper_bound(p: f64, counted: Counts) -> f64
    requires { (lt zero p ≡ true) × T (le p one) }
    ensures { result ≡ upper_bound p counted.n }
{
    let variance = p * (1.0 - p) / (counted.n as f64 - 1.0);
    if reaches_one(p, variance) {
        return 1.0;
    }
    at_most_one(p + Z_995 * sqrt::sqrt(variance))
}

// p_global' from p_global.
fn global_bound(p_global: f64, counted: Counts) -> f64
    requires { T (le p_global one) }
    ensures { result ≡ prime_of p_global counted.n }
{
    if p_global > 0.0 {
        return upper_bound(p_global, counted);
    }
    zero_count::zero_count_bound(counted.n)
}

// The larger of 1/k and p_global'.
fn floor_of(prime: f64, counted: Counts) -> f64
    ensures { result ≡ floor_from prime counted.k }
{
    larger_of(1.0 / (counted.k as f64), prime)
}

// Whether p_local can raise the estimate.
#[tactic(auto, using(counts::proofs::One::one_is), unfolding(crate::specs::Estimate::can_raise))]
fn can_raise(floor: f64, runs: Runs) -> bool
    ensures { result ≡ can_raise floor runs.longest runs.n }
{
    floor < 1.0 && value_at(floor, runs) > log_alpha()
}

// p_local with its rounds, where it is solved.
fn local(floor: f64, runs: Runs) -> Option<Solution>
    ensures { result ≡ cond (can_raise floor runs.longest runs.n)
        (Some (record { rounds = local_rounds floor runs.longest runs.n; value = local_value floor runs.longest runs.n })) None }
{
    if can_raise(floor, runs) {
        Some(solve(runs, floor))
    } else {
        None
    }
}

// The estimate of counts that can be. Its entropy is in range and never refused.
fn estimated(counted: Counts) -> Result<Estimated, Refusal>
    ensures { answer_of result ≡ estimated_of counted.c counted.n counted.longest counted.k }
{
    let p_global = hit_rate(counted);
    let p_global_prime = global_bound(p_global, counted);
    let floor = floor_of(p_global_prime, counted);
    let solution = local(floor, counted.runs()).unwrap_or(UNSOLVED);
    let p_local = solution.value;
    let min_entropy = entropy::min_entropy(larger_of(floor, p_local))?;
    Ok(Estimated {
        k: counted.k,
        rounds: solution.rounds,
        estimate: Estimate {
            c: counted.c,
            n: counted.n,
            max_run_len: counted.longest,
            p_global,
            p_global_prime,
            p_local,
            min_entropy,
        },
    })
}

// prediction_estimate: the estimate of C correct of N predictions with a longest run, over an alphabet of k symbols.
pub fn prediction_estimate(c: u64, n: u64, max_run_len: u64, k: u64) -> Result<Estimated, Refusal>
    ensures { answer_of result ≡ estimate_of c n max_run_len k }
{
    estimated(Counts::new(c, n, max_run_len, k)?)
}
