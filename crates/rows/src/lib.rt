// Several records in a row.
#![tactic(auto)]

ghost use Rattle.std.specs.Prelude.{◌≡◌, ◌≤◌, length};
ghost use Rattle.record.specs.Told.{reading_told};
ghost use Rattle.rows.specs.Rows.{record_at, row_of, start_of};
ghost use Rattle.rows.specs.Told.{row_told};

use answer::{DONE, Refusal};
use record::Reading;
use record::read::{extent, read_record};

// How many good records there are, how the first bad one is refused, where one is bad, and the byte at which it starts or the input ends. The first bad
// one is the record of place `good`, counted from 0.
#[derive(Clone, Copy, Debug, PartialEq, Eq)]
pub struct Records {
    pub good: u64,
    pub bad: Option<Refusal>,
    pub byte: usize,
}

// The same as C has it: the number of the first bad one, 0 where none is bad.
#[repr(C)]
#[derive(Clone, Copy)]
pub struct Row {
    pub good: u64,
    pub number: u64,
    pub byte: u64,
}

impl From<Records> for Row {
    ghost use Rattle.std.specs.Prelude.{◌≡◌};
    ghost use Rattle.rows.specs.Told.{row_told};

    ghost from_gives = { λ records row. row ≡ row_told records };

    fn from(records: Records) -> Row {
        let number = match records.bad {
            None => DONE,
            Some(refusal) => refusal.number(),
        };
        Row {
            good: records.good,
            number,
            byte: records.byte as u64,
        }
    }
}

// Reads the records that stand one after the other, up to the first bad one. No bytes are no records.
pub fn read_records(bytes: &[u8]) -> Records
    ensures { row_told result ≡ row_of bytes.now }
{
    // Kept: (d) a place in the bytes; an iterator over records would be a type with a model, for this loop and the next.
    let mut at = 0;
    let mut good = 0;
    while at < bytes.len() {
        match extent(&bytes[at..]) {
            Ok(size) => at += size,
            Err(refusal) => {
                return Records {
                    good,
                    bad: Some(refusal),
                    byte: at,
                };
            }
        }
        good += 1;
    }
    Records {
        good,
        bad: None,
        byte: at,
    }
}

// The byte at which the record of a place starts. A bad one before it is not passed.
fn start_of(bytes: &[u8], place: u64) -> usize
    ensures { (result ≡ start_of bytes.now place) × (result ≤ length bytes.now) }
{
    let mut at = 0;
    for _ in 0..place {
        match extent(&bytes[at..]) {
            Ok(size) => at += size,
            Err(_) => return at,
        }
    }
    at
}

// The record of a place, counted from 0; the first bad one where it stands before it.
pub fn record_at(bytes: &[u8], place: u64) -> Result<Reading, Refusal>
    ensures { reading_told result ≡ record_at bytes.now place }
{
    let at = start_of(bytes, place);
    read_record(&bytes[at..])
}
