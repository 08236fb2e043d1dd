// The same by the number of a kind. Of a number that is no kind the fields are those of the least record there is.
ghost use Rattle.std.specs.Prelude.{◌≡◌, ◌≤◌, length};
ghost use Rattle.std.proofs.lemmas.List.Edits.{sets};
ghost use Rattle.envelope.specs.Envelope.{body_of, body_start, following};
ghost use Rattle.fields.specs.Fields.{answer_in, answer_size, fields_of, is_kind, tells};
ghost use Rattle.fields.specs.Kind.{kind_number};

use crate::{Kind, body};
use answer::Answer;

// The kinds of record that hold an answer. The second tells who predicted.
pub const ANSWER_KIND: u64 = 1;

pub const NAMED_KIND: u64 = 2;

#[tactic(auto, unfolding(crate::specs::Fields::is_kind))]
pub fn is_kind(kind: u64) -> bool
    ensures { result ≡ is_kind kind }
{
    kind == ANSWER_KIND || kind == NAMED_KIND
}

// Whether a kind tells who predicted.
#[tactic(auto, unfolding(crate::specs::Fields::tells))]
pub fn tells_winner(kind: u64) -> bool
    ensures { result ≡ tells kind }
{
    kind == NAMED_KIND
}

// The kind that has the fields of a number's.
fn kind_of(number: u64) -> Kind
    ensures { fields_of (kind_number result) ≡ fields_of number }
{
    if tells_winner(number) {
        Kind::Named
    } else {
        Kind::Unnamed
    }
}

// What stands behind the length field in a record of a kind.
pub fn following_of(kind: u64) -> u64
    ensures { result ≡ following (fields_of kind) }
{
    kind_of(kind).following()
}

// How many bytes a record of a kind takes.
pub fn size_of(kind: u64) -> u64
    ensures { result ≡ answer_size kind }
{
    kind_of(kind).size() as u64
}

// The answer in the record of a kind at the start.
pub fn answer_in(bytes: &[u8], kind: u64) -> Answer
    requires { answer_size kind ≤ length bytes.now }
    ensures { result ≡ answer_in kind bytes.now }
{
    body::answer_in(bytes, kind_of(kind))
}

// Puts the body of an answer's record of a kind.
pub fn put_answer(out: &mut [u8], kind: u64, a: Answer)
    requires { answer_size kind ≤ length out.old }
    ensures { out.new ≡ sets out.old body_start (body_of (fields_of kind) a) }
{
    body::put_answer(out, kind_of(kind), &a);
}
