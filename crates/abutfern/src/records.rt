// Records of answers.
ghost use Rattle.std.specs.Prelude.{◌≡◌};
ghost use Rattle.record.specs.Flag.{flagged_of, held_by};
ghost use Rattle.record.specs.Record.{reading_of, written_in, written_of};
ghost use Rattle.rows.specs.Rows.{record_at, row_of};

use answer::Answer;
use record::flag::held_by;
use record::{Flagged, Written};
use rows::Row;

// Writes the record of an answer, of a kind, at the start of `out`. `told` is 0 where its winner and score are absent.
#[unsafe(no_mangle)]
pub extern "C" fn abutfern_write_record(
    answer: Answer,
    told: u64,
    kind: u64,
    out: &mut [u8],
) -> Written
    ensures { (result ≡ written_of (held_by answer told) kind out.old) ×
        (out.new ≡ written_in (held_by answer told) kind out.old) }
{
    record::write::write_record(held_by(answer, told), kind, out).into()
}

// Reads the record at the start, whatever follows it.
#[unsafe(no_mangle)]
pub extern "C" fn abutfern_read_record(bytes: &[u8]) -> Flagged
    ensures { result ≡ flagged_of (reading_of bytes.now) }
{
    record::read::read_record(bytes).into()
}

// Reads the records that stand one after the other, up to the first bad one.
#[unsafe(no_mangle)]
pub extern "C" fn abutfern_read_records(bytes: &[u8]) -> Row
    ensures { result ≡ row_of bytes.now }
{
    rows::read_records(bytes).into()
}

// The record of a place, counted from 0.
#[unsafe(no_mangle)]
pub extern "C" fn abutfern_record_at(bytes: &[u8], place: u64) -> Flagged
    ensures { result ≡ flagged_of (record_at bytes.now place) }
{
    rows::record_at(bytes, place).into()
}
