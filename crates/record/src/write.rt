// The writer of a record.
ghost use Rattle.std.specs.Prelude.{◌≡◌, IfOk};
ghost use Rattle.answer.specs.Results.{number_in};
ghost use Rattle.fields.specs.Kind.{kind_number};
ghost use Rattle.record.specs.Record.{answer_held, write_number, written_in, written_of};
ghost use Rattle.record.specs.Told.{written_told};

use answer::{Answer, Refusal};
use envelope::put_head;
use fields::Kind;
use fields::body::put_answer;
use recordable::{Held, is_holdable};

// The kind of a number, where a record of it can be written. Of a number that is no kind, the least record there is is to fit the output.
fn writable(held: Held, kind: u64, out: &[u8]) -> Result<Kind, Refusal>
    ensures number { number_in result ≡ write_number held kind out.now }
    ensures kind { IfOk result (λ k. kind_number k ≡ kind) }
{
    let asked = Kind::try_from(kind);
    if out.len() < asked.unwrap_or(Kind::Unnamed).size() {
        return Err(Refusal::TooShort);
    }
    let kind = asked?;
    if is_holdable(held, kind.tells_winner()) {
        Ok(kind)
    } else {
        Err(Refusal::BadAnswer)
    }
}

// The answer that is held, named or not.
fn answer_of(held: &Held) -> &Answer
    ensures { result.now ≡ answer_held held.now }
{
    match held {
        Held::Unnamed(a) => a,
        Held::Named(a) => a,
    }
}

// Writes the record of an answer, of a kind, at the start of `out`, and says how many bytes it takes. A refusal (2, 8, 9 in that order) writes nothing.
pub fn write_record(held: Held, kind: u64, out: &mut [u8]) -> Result<usize, Refusal>
    ensures value { written_told result ≡ written_of held kind out.old }
    ensures out_after { out.new ≡ written_in held kind out.old }
{
    let kind = writable(held, kind, out)?;
    put_head(out, kind.into(), kind.following());
    put_answer(out, kind, answer_of(&held));
    Ok(kind.size())
}
