// The bisection for p_local (Rust: calc_p_local).
#![tactic(auto)]

ghost use Rattle.std.specs.Prelude.{◌≡◌, Ok};
ghost use Rattle.answer.specs.Results.{solved_of};
ghost use Rattle.bisect.specs.Bisection.{local_of, log_alpha, midpoint, reached, solved_from};

pub use crate::bracket::Bracket;
use answer::{Refusal, Solution};
use counts::possible::Runs;
use std::ops::ControlFlow;

pub mod bracket;

// The most rounds that are begun.
pub const ROUND_LIMIT: u64 = 1076;

// ln 0.99.
pub fn log_alpha() -> f64
    ensures { result ≡ log_alpha }
{
    ln::ln(0.99)
}

// Whether a value is close enough to ln 0.99.
fn is_reached(p_val: f64) -> bool
    ensures { result ≡ reached p_val }
{
    closeness::rel_epsilon_equal(p_val, log_alpha(), f64::MIN_POSITIVE, f64::EPSILON, 4)
}

fn midpoint_of(a: f64, b: f64) -> f64
    ensures { result ≡ midpoint a b }
{
    // Kept: std's midpoint halves large numbers before it adds them, and rounds otherwise then.
    (a + b) / 2.0
}

// The solution over ldomain..1 and the number of rounds begun, whatever ldomain is.
pub fn solve(runs: Runs, ldomain: f64) -> Solution
    ensures { solved_of (Ok result) ≡ solved_from ldomain runs.longest runs.n }
{
    let mut b = Bracket::open(ldomain, runs);
    for past in 0..ROUND_LIMIT {
        match b.round(ldomain, runs) {
            ControlFlow::Break(value) => {
                return Solution {
                    rounds: past + 1,
                    value,
                };
            }
            ControlFlow::Continue(next) => {
                b = next;
            }
        }
    }
    Solution {
        rounds: ROUND_LIMIT,
        value: b.p,
    }
}

// The p_local of an ldomain from 1/256 up to but not 1.
pub fn calc_p_local(max_run_len: u64, n: u64, ldomain: f64) -> Result<Solution, Refusal>
    ensures { solved_of result ≡ local_of max_run_len n ldomain }
{
    let runs = Runs::new(max_run_len, n)?;
    if counts::is_outside(ldomain) {
        return Err(Refusal::OutOfRange);
    }
    Ok(solve(runs, ldomain))
}
