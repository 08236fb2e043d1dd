// The reader of a record.
ghost use Rattle.std.specs.Prelude.{◌≡◌, ◌≤◌, IfOk, length};
ghost use Rattle.answer.specs.Results.{number_in};
ghost use Rattle.fields.specs.Fields.{answer_size};
ghost use Rattle.fields.specs.Kind.{kind_number};
ghost use Rattle.record.specs.Record.{extent_of, framed_as, held_in, kind_in, reading_of};
ghost use Rattle.record.specs.Told.{extent_told, reading_told};
ghost use Rattle.record.specs.Inner.Kinds.{kind_told};

use crate::Reading;
use answer::Refusal;
use envelope::is_framed;
use fields::Kind;
use fields::body::answer_in;
use recordable::{Held, is_readable};

// Whether a whole record of a kind stands at the start.
fn is_framed_as(bytes: &[u8], kind: Kind) -> bool
    ensures { result ≡ framed_as (kind_number kind) bytes.now }
{
    is_framed(bytes, kind.into(), kind.following())
}

// The kind of the record at the start.
#[tactic(auto, unfolding(crate::specs::Record::kind_in))]
fn kind_in(bytes: &[u8]) -> Option<Kind>
    ensures { kind_told result ≡ kind_in bytes.now }
{
    if is_framed_as(bytes, Kind::Unnamed) {
        Some(Kind::Unnamed)
    } else if is_framed_as(bytes, Kind::Named) {
        Some(Kind::Named)
    } else {
        None
    }
}

// The kind of the record at the start, where that can be read. Refuses with 8, then 9. Inlined, since a result handed back goes through
// memory.
#[inline]
fn readable(bytes: &[u8]) -> Result<Kind, Refusal>
    ensures number { number_in result ≡ (reading_of bytes.now).number }
    ensures kind { IfOk result (λ kind. kind_number kind ≡ kind_in bytes.now) }
{
    let kind = kind_in(bytes).ok_or(Refusal::BadFrame)?;
    if is_readable(answer_in(bytes, kind), kind.tells_winner()) {
        Ok(kind)
    } else {
        Err(Refusal::BadAnswer)
    }
}

// What the record of a kind at the start holds. Who predicted is absent where the kind does not tell it.
#[tactic(auto, using(fields::proofs::Telling::unnamed_tells, fields::proofs::Telling::named_tells), unfolding(crate::specs::Record::held_in))]
fn held_in(bytes: &[u8], kind: Kind) -> Held
    requires { answer_size (kind_number kind) ≤ length bytes.now }
    ensures { result ≡ held_in (kind_number kind) bytes.now }
{
    let answer = answer_in(bytes, kind);
    match kind {
        Kind::Unnamed => Held::Unnamed(answer),
        Kind::Named => Held::Named(answer),
    }
}

// How many bytes the record at the start takes, where it can be read. Refuses with 8, then 9.
pub fn extent(bytes: &[u8]) -> Result<usize, Refusal>
    ensures { extent_told result ≡ extent_of bytes.now }
{
    let kind = readable(bytes)?;
    Ok(kind.size())
}

// Reads the record at the start of the bytes, whatever follows it. Refuses with 8, then 9.
pub fn read_record(bytes: &[u8]) -> Result<Reading, Refusal>
    ensures { reading_told result ≡ reading_of bytes.now }
{
    let kind = readable(bytes)?;
    Ok(Reading {
        size: kind.size(),
        held: held_in(bytes, kind),
    })
}
