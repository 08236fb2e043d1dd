// The fields behind the head.
ghost use Rattle.std.specs.Prelude.{◌≡◌, ◌+◌, ◌≤◌, length};
ghost use Rattle.std.specs.Float.{binary64};
ghost use Rattle.std.specs.Float.Ieee.{of_bits, to_bits};
ghost use Rattle.std.proofs.lemmas.List.Edits.{sets};
ghost use Rattle.envelope.specs.Little.{little, number_at};
ghost use Rattle.envelope.specs.Envelope.{body_of, body_start, record_size, values_at};
ghost use Rattle.fields.specs.Fields.{answer_fields, answer_in, answer_of, answer_size, fields_of};
ghost use Rattle.fields.specs.Kind.{kind_number};

use crate::Kind;
use answer::{Answer, Estimate};
use envelope::{number_at, put_number};
use pattern::{bits_of, double_of};

// Where each field starts.
const NUMBER: usize = 6;

const K: usize = 7;

const PLACE: usize = 9;

const C: usize = 13;

const N: usize = 17;

const MAX_RUN_LEN: usize = 21;

const ROUNDS: usize = 25;

const P_GLOBAL: usize = 29;

const P_GLOBAL_PRIME: usize = 37;

const P_LOCAL: usize = 45;

const MIN_ENTROPY: usize = 53;

const WINNER: usize = 61;

const SCORE: usize = 62;

// The double whose bits stand at a place.
fn double_at(bytes: &[u8], at: usize) -> f64
    requires { at + 8 ≤ length bytes.now }
    ensures { result ≡ of_bits binary64 (number_at bytes.now at 8) }
{
    double_of(number_at(bytes, at, 8))
}

fn put_double(out: &mut [u8], at: usize, x: f64)
    requires { at + 8 ≤ length out.old }
    ensures { out.new ≡ sets out.old at (little 8 (to_bits binary64 x)) }
{
    put_number(out, at, 8, bits_of(x));
}

#[tactic(auto, unfolding(envelope::specs::Envelope::body_size, envelope::specs::Envelope::values_at))]
fn estimate_in(bytes: &[u8]) -> Estimate
    requires { record_size answer_fields ≤ length bytes.now }
    ensures { result ≡ (answer_of (values_at answer_fields body_start bytes.now)).estimate }
{
    Estimate {
        c: number_at(bytes, C, 4),
        n: number_at(bytes, N, 4),
        max_run_len: number_at(bytes, MAX_RUN_LEN, 4),
        p_global: double_at(bytes, P_GLOBAL),
        p_global_prime: double_at(bytes, P_GLOBAL_PRIME),
        p_local: double_at(bytes, P_LOCAL),
        min_entropy: double_at(bytes, MIN_ENTROPY),
    }
}

// The answer in the record of a kind at the start. Who predicted is 0 where the kind does not tell it.
#[tactic(auto, using(crate::proofs::Telling::least_bytes, crate::proofs::Telling::named_bytes), unfolding(envelope::specs::Envelope::body_size))]
pub fn answer_in(bytes: &[u8], kind: Kind) -> Answer
    requires { answer_size (kind_number kind) ≤ length bytes.now }
    ensures { result ≡ answer_in (kind_number kind) bytes.now }
{
    // Read before the others, so that no field is held on the stack over a branch.
    let (winner, score) = match kind {
        Kind::Unnamed => (0, 0),
        Kind::Named => (number_at(bytes, WINNER, 1), number_at(bytes, SCORE, 4)),
    };
    Answer {
        number: number_at(bytes, NUMBER, 1),
        place: number_at(bytes, PLACE, 4),
        k: number_at(bytes, K, 2),
        rounds: number_at(bytes, ROUNDS, 4),
        winner,
        score,
        estimate: estimate_in(bytes),
    }
}

// Puts the fields that every kind has.
#[tactic(auto, unfolding(envelope::specs::Envelope::body_size))]
fn put_shared(out: &mut [u8], a: &Answer)
    requires { record_size answer_fields ≤ length out.old }
    ensures { out.new ≡ sets out.old body_start (body_of answer_fields a.now) }
{
    let e = &a.estimate;
    put_number(out, NUMBER, 1, a.number);
    put_number(out, K, 2, a.k);
    put_number(out, PLACE, 4, a.place);
    put_number(out, C, 4, e.c);
    put_number(out, N, 4, e.n);
    put_number(out, MAX_RUN_LEN, 4, e.max_run_len);
    put_number(out, ROUNDS, 4, a.rounds);
    put_double(out, P_GLOBAL, e.p_global);
    put_double(out, P_GLOBAL_PRIME, e.p_global_prime);
    put_double(out, P_LOCAL, e.p_local);
    put_double(out, MIN_ENTROPY, e.min_entropy);
}

// Puts the body of an answer's record of a kind.
#[tactic(auto, using(crate::proofs::Telling::least_bytes, crate::proofs::Telling::telling_bytes))]
pub fn put_answer(out: &mut [u8], kind: Kind, a: &Answer)
    requires { answer_size (kind_number kind) ≤ length out.old }
    ensures { out.new ≡ sets out.old body_start (body_of (fields_of (kind_number kind)) a.now) }
{
    put_shared(out, a);
    if kind.tells_winner() {
        put_number(out, WINNER, 1, a.winner);
        put_number(out, SCORE, 4, a.score);
    }
}
