// The Rust's answer of an estimator.
use crate::numbers::{double, word};
use answer::Answer;
use near::{same, within};

// Number, C, N, longest run and k; the bits of p_global and p_global'; p_local and min-entropy.
#[derive(Clone, Copy)]
pub struct Expected {
    counts: [u64; 5],
    p_global: u64,
    p_global_prime: u64,
    p_local: f64,
    min_entropy: f64,
}

impl Expected {
    // From nine words.
    pub fn split_off(words: &mut &[u8]) -> Option<Expected> {
        Some(Expected {
            counts: [
                word(words)?,
                word(words)?,
                word(words)?,
                word(words)?,
                word(words)?,
            ],
            p_global: word(words)?,
            p_global_prime: word(words)?,
            p_local: double(words)?,
            min_entropy: double(words)?,
        })
    }

    // Whether ours agrees. p_global' has the same bits where the checks have 1, else it is within 1e-9; p_local and
    // min-entropy are within 1e-6 where the checks have 2, else not compared.
    pub fn agrees(&self, ours: Answer, checks: u8) -> bool {
        let e = ours.estimate;
        let prime = if checks % 2 == 1 {
            same(e.p_global_prime, self.p_global_prime)
        } else {
            within(
                e.p_global_prime,
                pattern::double_of(self.p_global_prime),
                1e-9,
            )
        };
        let near = checks < 2
            || within(e.p_local, self.p_local, 1e-6)
                && within(e.min_entropy, self.min_entropy, 1e-6);
        self.counts == [ours.number, e.c, e.n, e.max_run_len, ours.k]
            && same(e.p_global, self.p_global)
            && prime
            && near
    }
}
