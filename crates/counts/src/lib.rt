// Which counts and probabilities an estimate refuses.
#![tactic(auto)]

ghost use Rattle.std.specs.Prelude.{◌≡◌, ◌&&◌, eqb, ltb};
ghost use Rattle.counts.specs.Counts.{impossible_counts, outside};

pub mod doubles;
pub mod possible;

// The largest number of predictions.
pub const COUNT_LIMIT: u64 = 134_217_728;

// Number 4 of the estimate: counts that cannot be.
#[tactic(auto, unfolding(crate::specs::Counts::impossible_counts, crate::specs::Counts::count_limit))]
pub fn impossible_counts(c: u64, n: u64, max_run_len: u64, k: u64) -> bool
    ensures { result ≡ impossible_counts c n max_run_len k }
{
    let no_run = 0 < c && max_run_len == 0;
    n < c || c < max_run_len || no_run || k < 1 || 256 < k || COUNT_LIMIT < n
}

// Number 5: not from 1/256 up to but not 1.
#[tactic(auto, using(crate::proofs::One::least_is, crate::proofs::One::one_is), unfolding(crate::specs::Counts::outside))]
pub fn is_outside(p: f64) -> bool
    ensures { result ≡ outside p }
{
    !(0.00390625 <= p && p < 1.0)
}
