// What every estimator returns: an answer number and, where it ran, the estimate.
#![tactic(auto)]

ghost use Rattle.std.specs.Prelude.{◌≡◌};
ghost use Rattle.answer.specs.Numbers.{given};
ghost use Rattle.answer.specs.Predicted.{predicted_by};
ghost use Rattle.answer.specs.Refused.{minus_one, refused, refused_at, refused_solved, refused_value};
ghost use Rattle.answer.specs.Results.{number_of, place_of, refused_by};

// The answer numbers of documents 01 and 02.
pub const DONE: u64 = 0;

pub const TOO_LONG: u64 = 1;

pub const TOO_SHORT: u64 = 2;

pub const TOO_WIDE: u64 = 3;

pub const IMPOSSIBLE: u64 = 4;

pub const OUT_OF_RANGE: u64 = 5;

pub const NOT_RUN: u64 = 6;

pub const BAD_WIDTH: u64 = 7;

pub const BAD_FRAME: u64 = 8;

pub const BAD_ANSWER: u64 = 9;

pub const BAD_STATE: u64 = 10;

// Why there is no result. `TooWide` has the place of the symbol that is.
#[derive(Clone, Copy, Debug, PartialEq, Eq)]
pub enum Refusal {
    TooLong,
    TooShort,
    TooWide(u64),
    Impossible,
    OutOfRange,
    NotRun,
    BadWidth,
    BadFrame,
    BadAnswer,
    BadState,
}

impl Refusal {
    // Its answer number.
    pub fn number(self) -> u64
        ensures { result ≡ number_of self }
    {
        match self {
            Refusal::TooLong => TOO_LONG,
            Refusal::TooShort => TOO_SHORT,
            Refusal::TooWide(_) => TOO_WIDE,
            Refusal::Impossible => IMPOSSIBLE,
            Refusal::OutOfRange => OUT_OF_RANGE,
            Refusal::NotRun => NOT_RUN,
            Refusal::BadWidth => BAD_WIDTH,
            Refusal::BadFrame => BAD_FRAME,
            Refusal::BadAnswer => BAD_ANSWER,
            Refusal::BadState => BAD_STATE,
        }
    }

    // The place that it names, and 0 where it names none.
    pub fn place(self) -> u64
        ensures { result ≡ place_of self }
    {
        match self {
            Refusal::TooWide(place) => place,
            _ => 0,
        }
    }
}

// The shared estimate: C, N, the longest run, p_global, p_global', p_local and the min-entropy in bits per sample.
#[repr(C)]
#[derive(Clone, Copy)]
pub struct Estimate {
    pub c: u64,
    pub n: u64,
    pub max_run_len: u64,
    pub p_global: f64,
    pub p_global_prime: f64,
    pub p_local: f64,
    pub min_entropy: f64,
}

// An estimate that was made: over an alphabet of k symbols, with the bisection rounds begun.
#[derive(Clone, Copy)]
pub struct Estimated {
    pub k: u64,
    pub rounds: u64,
    pub estimate: Estimate,
}

// And who predicted: the sub-predictor that won, from 1, with its right predictions.
#[derive(Clone, Copy)]
pub struct Rated {
    pub estimated: Estimated,
    pub winner: u64,
    pub score: u64,
}

// A float found by bisection, with the rounds begun.
#[derive(Clone, Copy)]
pub struct Solution {
    pub rounds: u64,
    pub value: f64,
}

// An estimator's answer, as C has it. `place` is that of number 3, `k` the alphabet's size, `rounds` the bisection rounds begun, `winner` the sub-predictor
// that won, from 1, with `score` right predictions; 0 where there is none.
#[repr(C)]
#[derive(Clone, Copy)]
pub struct Answer {
    pub number: u64,
    pub place: u64,
    pub k: u64,
    pub rounds: u64,
    pub winner: u64,
    pub score: u64,
    pub estimate: Estimate,
}

// One float, or a refusal, as C has it.
#[repr(C)]
#[derive(Clone, Copy)]
pub struct Value {
    pub number: u64,
    pub value: f64,
}

// A float found by bisection, with the rounds begun, or a refusal, as C has it.
#[repr(C)]
#[derive(Clone, Copy)]
pub struct Solved {
    pub number: u64,
    pub rounds: u64,
    pub value: f64,
}

// Whether a number is one that a result can have.
#[tactic(auto, unfolding(crate::specs::Numbers::given))]
pub fn is_given(number: u64) -> bool
    ensures { result ≡ given number }
{
    number <= BAD_WIDTH || number == BAD_STATE
}

// What stands where there is no float: -1.0.
pub fn no_value() -> f64
    ensures { result ≡ minus_one }
{
    -1.0
}

// A refusal that names a place: every count 0, every float -1.0.
pub fn refused_at(number: u64, place: u64) -> Answer
    ensures { result ≡ refused_at number place }
{
    let none = no_value();
    let estimate = Estimate {
        c: 0,
        n: 0,
        max_run_len: 0,
        p_global: none,
        p_global_prime: none,
        p_local: none,
        min_entropy: none,
    };
    Answer {
        number,
        place,
        k: 0,
        rounds: 0,
        winner: 0,
        score: 0,
        estimate,
    }
}

// A refusal by number.
pub fn refused_as(number: u64) -> Answer
    ensures { result ≡ refused number }
{
    refused_at(number, 0)
}

fn refused_by(refusal: Refusal) -> Answer
    ensures { result ≡ refused_by refusal }
{
    refused_at(refusal.number(), refusal.place())
}

// An answer with who predicted: one other than 0 has no winner.
pub fn predicted_by(a: Answer, winner: u64, score: u64) -> Answer
    ensures { result ≡ predicted_by winner score a }
{
    if a.number != DONE {
        return a;
    }
    Answer { winner, score, ..a }
}

pub fn refused_value(number: u64) -> Value
    ensures { result ≡ refused_value number }
{
    let value = no_value();
    Value { number, value }
}

pub fn refused_solved(number: u64) -> Solved
    ensures { result ≡ refused_solved number }
{
    Solved {
        number,
        rounds: 0,
        value: no_value(),
    }
}

impl From<Result<Estimated, Refusal>> for Answer {
    ghost use Rattle.std.specs.Prelude.{◌≡◌};
    ghost use Rattle.answer.specs.Results.{answer_of};

    ghost from_gives = { λ found answer. answer ≡ answer_of found };

    fn from(found: Result<Estimated, Refusal>) -> Answer {
        Answer::from(found.map(|estimated| Rated {
            estimated,
            winner: 0,
            score: 0,
        }))
    }
}

impl From<Result<Rated, Refusal>> for Answer {
    ghost use Rattle.std.specs.Prelude.{◌≡◌};
    ghost use Rattle.answer.specs.Results.{rated_answer};

    ghost from_gives = { λ found answer. answer ≡ rated_answer found };

    fn from(found: Result<Rated, Refusal>) -> Answer {
        match found {
            Ok(r) => Answer {
                number: DONE,
                place: 0,
                k: r.estimated.k,
                rounds: r.estimated.rounds,
                winner: r.winner,
                score: r.score,
                estimate: r.estimated.estimate,
            },
            Err(refusal) => refused_by(refusal),
        }
    }
}

impl From<Result<f64, Refusal>> for Value {
    ghost use Rattle.std.specs.Prelude.{◌≡◌};
    ghost use Rattle.answer.specs.Results.{value_of};

    ghost from_gives = { λ found value. value ≡ value_of found };

    fn from(found: Result<f64, Refusal>) -> Value {
        match found {
            Ok(value) => Value {
                number: DONE,
                value,
            },
            Err(refusal) => refused_value(refusal.number()),
        }
    }
}

impl From<Result<Solution, Refusal>> for Solved {
    ghost use Rattle.std.specs.Prelude.{◌≡◌};
    ghost use Rattle.answer.specs.Results.{solved_of};

    ghost from_gives = { λ found solved. solved ≡ solved_of found };

    fn from(found: Result<Solution, Refusal>) -> Solved {
        match found {
            Ok(s) => Solved {
                number: DONE,
                rounds: s.rounds,
                value: s.value,
            },
            Err(refusal) => refused_solved(refusal.number()),
        }
    }
}
