// Which answers a record may hold.
#![tactic(auto)]

ghost use Rattle.std.specs.Prelude.{◌≡◌, ◌&&◌, ◌||◌};
ghost use Rattle.std.specs.Float.Ieee.{eq};
ghost use Rattle.answer.specs.Refused.{minus_one};
ghost use Rattle.rounding.specs.Doubles.{one};
ghost use Rattle.recordable.specs.Recordable.{as_ran, as_refused, blank, held_as, holdable, likelihoods, placed, recordable, within, won};

use answer::{Answer, DONE, Estimate, TOO_WIDE};
use bisect::ROUND_LIMIT;
use capture::bits::SYMBOL_LIMIT;
use counts::impossible_counts;

// The windows or levels that can win are at most so many.
const WINNER_LIMIT: u64 = 16;

// An answer as a record holds it. In `Unnamed` who predicted is absent: its winner and score say nothing.
#[derive(Clone, Copy)]
pub enum Held {
    Unnamed(Answer),
    Named(Answer),
}

// A float in 0..top; a NaN is not.
#[tactic(auto, unfolding(crate::specs::Recordable::within))]
fn is_within(x: f64, top: f64) -> bool
    ensures { result ≡ within x top }
{
    0.0 <= x && x <= top
}

// What stands where there is no float.
#[tactic(auto, using(crate::proofs::Floats::minus_one_is))]
fn is_none(x: f64) -> bool
    ensures { result ≡ eq x minus_one }
{
    x == -1.0
}

// p_local is -1.0 where it is not solved.
#[tactic(auto, using(crate::proofs::Floats::one_is))]
fn is_local(x: f64) -> bool
    ensures { result ≡ (eq x minus_one || within x one) }
{
    is_none(x) || is_within(x, 1.0)
}

// Whether the four floats are in their ranges.
#[tactic(auto, using(crate::proofs::Floats::one_is, crate::proofs::Floats::eight_is), unfolding(crate::specs::Recordable::likelihoods))]
fn are_likelihoods(e: &Estimate) -> bool
    ensures { result ≡ likelihoods e.now }
{
    is_within(e.p_global, 1.0)
        && is_within(e.p_global_prime, 1.0)
        && is_local(e.p_local)
        && is_within(e.min_entropy, 8.0)
}

// Whether an answer of number 0 can be.
#[tactic(auto, unfolding(crate::specs::Recordable::as_ran))]
fn is_as_ran(a: &Answer) -> bool
    ensures { result ≡ as_ran a.now }
{
    let e = &a.estimate;
    a.place == 0
        && !impossible_counts(e.c, e.n, e.max_run_len, a.k)
        && a.rounds <= ROUND_LIMIT
        && are_likelihoods(e)
}

// Whether the counts are 0 and the four floats -1.0.
#[tactic(auto, unfolding(crate::specs::Recordable::blank))]
fn is_blank(e: &Estimate) -> bool
    ensures { result ≡ blank e.now }
{
    e.c == 0
        && e.n == 0
        && e.max_run_len == 0
        && is_none(e.p_global)
        && is_none(e.p_global_prime)
        && is_none(e.p_local)
        && is_none(e.min_entropy)
}

// Whether the place is one of a capture, for number 3, and else 0.
#[tactic(auto, unfolding(crate::specs::Recordable::placed, capture::specs::Limit::symbol_limit))]
fn is_placed(a: &Answer) -> bool
    ensures { result ≡ placed a.now.number a.now.place }
{
    if a.number == TOO_WIDE {
        a.place < SYMBOL_LIMIT as u64
    } else {
        a.place == 0
    }
}

// Whether the fields are those of a number other than 0.
#[tactic(auto, unfolding(crate::specs::Recordable::as_refused))]
fn is_as_refused(a: &Answer) -> bool
    ensures { result ≡ as_refused a.now }
{
    is_placed(a) && a.k == 0 && a.rounds == 0 && is_blank(&a.estimate)
}

// Whether a record may hold an answer; else it is number 9.
// Kept: (a) the number is C's (abutfern_write_record) or a record's, and may be any, so the answer is no Result here.
#[tactic(auto, unfolding(crate::specs::Recordable::recordable))]
pub fn is_recordable(a: Answer) -> bool
    ensures { result ≡ recordable a }
{
    if a.number == DONE {
        is_as_ran(&a)
    } else {
        answer::is_given(a.number) && is_as_refused(&a)
    }
}

// Whether who predicted can be: where there is no winner there is no score, and an answer other than 0 has no winner.
#[tactic(auto, unfolding(crate::specs::Recordable::won))]
fn is_won(a: &Answer) -> bool
    ensures { result ≡ won a.now }
{
    if a.winner == 0 {
        a.score == 0
    } else {
        a.number == DONE && a.winner <= WINNER_LIMIT && a.score <= a.estimate.n
    }
}

// Whether a record may hold an answer that was read from it: who predicted is there just where the record tells it.
#[tactic(auto, unfolding(crate::specs::Recordable::holdable))]
pub fn is_readable(a: Answer, tells: bool) -> bool
    ensures { result ≡ holdable tells (held_as tells a) }
{
    is_recordable(a) && (!tells || is_won(&a))
}

// Whether a record that tells who predicted, or one that does not, may hold an answer; else it is number 9.
#[tactic(auto, unfolding(crate::specs::Recordable::holdable))]
pub fn is_holdable(held: Held, tells: bool) -> bool
    ensures { result ≡ holdable tells held }
{
    match held {
        Held::Unnamed(a) => !tells && is_readable(a, false),
        Held::Named(a) => is_readable(a, true),
    }
}
