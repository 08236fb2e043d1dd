// For callers that have no enum: a flag beside the answer, 0 where who predicted is absent.
ghost use Rattle.std.specs.Prelude.{◌≡◌};
ghost use Rattle.record.specs.Flag.{flagged_of, held_by};

use crate::{Flagged, Numbered, Reading};
use answer::{Answer, DONE, Estimated, Refusal};
use recordable::Held;

// An answer and its flag, as a record holds it. Any flag but 0 says that the winner and the score are there.
// Kept: (a) the flag beside the answer is the C interface's (abutfern_write_record).
pub fn held_by(answer: Answer, told: u64) -> Held
    ensures { result ≡ held_by answer told }
{
    if told == 0 {
        Held::Unnamed(answer)
    } else {
        Held::Named(answer)
    }
}

// A reading with its flag.
pub fn flagged(r: Numbered) -> Flagged
    ensures { result ≡ flagged_of (record { number = r.number; size = r.size; held = r.held }) }
{
    let (told, answer) = match r.held {
        Held::Unnamed(a) => (0, a),
        Held::Named(a) => (1, a),
    };
    Flagged {
        number: r.number,
        size: r.size,
        told,
        answer,
    }
}

impl From<Result<Reading, Refusal>> for Flagged {
    ghost use Rattle.std.specs.Prelude.{◌≡◌};
    ghost use Rattle.record.specs.Flag.{flagged_of};
    ghost use Rattle.record.specs.Told.{reading_told};

    ghost from_gives = { λ found flagged. flagged ≡ flagged_of (reading_told found) };

    fn from(found: Result<Reading, Refusal>) -> Flagged {
        match found {
            Ok(reading) => {
                let (told, answer) = match reading.held {
                    Held::Unnamed(answer) => (0, answer),
                    Held::Named(answer) => (1, answer),
                };
                Flagged {
                    number: DONE,
                    size: reading.size as u64,
                    told,
                    answer,
                }
            }
            Err(refusal) => {
                let nothing: Result<Estimated, Refusal> = Err(refusal);
                Flagged {
                    number: refusal.number(),
                    size: 0,
                    told: 0,
                    answer: nothing.into(),
                }
            }
        }
    }
}
