// Counts that can be.
ghost use Rattle.std.specs.Prelude.{◌≡◌, ◌≤◌, true, false, IfOk, IfErr};
ghost use Rattle.answer.specs.declared.Refusal.TheVariants.{Impossible};
ghost use Rattle.counts.specs.Counts.{count_limit, impossible_counts, impossible_run};
ghost use Rattle.counts.specs.Inner.Possible.{Possible};

use crate::{COUNT_LIMIT, impossible_counts};
use answer::Refusal;

// The longest run of right predictions, of n.
#[derive(Clone, Copy)]
pub struct Runs {
    pub longest: u64,
    pub n: u64,
    ghost possible: { (longest ≤ n) × (n ≤ count_limit) },
}

impl Runs {
    // Number 4 of the function and the solver where they cannot be.
    #[tactic(auto, unfolding(crate::specs::Counts::impossible_run, crate::specs::Counts::count_limit))]
    pub fn new(longest: u64, n: u64) -> Result<Runs, Refusal>
        ensures ok { IfOk result (λ r. (impossible_run longest n ≡ false) × (r.longest ≡ longest) × (r.n ≡ n)) }
        ensures refused { IfErr result (λ e. (impossible_run longest n ≡ true) × (e ≡ Impossible)) }
    {
        if COUNT_LIMIT < n || n < longest {
            return Err(Refusal::Impossible);
        }
        Ok(Runs { longest, n })
    }
}

// c right predictions of n, the longest run of them, over an alphabet of k symbols.
#[derive(Clone, Copy)]
pub struct Counts {
    pub c: u64,
    pub n: u64,
    pub longest: u64,
    pub k: u64,
    ghost possible: { Possible c n longest k },
}

impl Counts {
    // Number 4 of the estimate where they cannot be.
    pub fn new(c: u64, n: u64, longest: u64, k: u64) -> Result<Counts, Refusal>
        ensures ok { IfOk result (λ x. (impossible_counts c n longest k ≡ false) × (x.c ≡ c) × (x.n ≡ n) × (x.longest ≡ longest) × (x.k ≡ k)) }
        ensures refused { IfErr result (λ e. (impossible_counts c n longest k ≡ true) × (e ≡ Impossible)) }
    {
        if impossible_counts(c, n, longest, k) {
            return Err(Refusal::Impossible);
        }
        Ok(Counts { c, n, longest, k })
    }

    pub fn runs(self) -> Runs
        ensures { (result.longest ≡ self.longest) × (result.n ≡ self.n) }
    {
        Runs {
            longest: self.longest,
            n: self.n,
        }
    }
}
