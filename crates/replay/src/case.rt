// A case of the list.
ghost use Rattle.std.specs.Prelude.{◌<◌, IfSome, length};

use crate::captures::{LONGEST, Rule};
use crate::compare::Comparison;
use crate::kind::Kind;
use crate::numbers::{byte, four};
use crate::tally::Verdict;

// How many bytes say the kind, the capture's shape, width, rule and length, the checks, and how long the parts are.
const HEADER: usize = 24;

// The shape of a capture that is stored.
const STORED: u8 = 255;

#[derive(Clone, Copy)]
enum Capture<'a> {
    Stored(&'a [u8]),
    ByRule(Rule),
}

#[derive(Clone, Copy)]
pub struct Case<'a> {
    // the kind's number
    pub kind: u8,
    width: u8,
    checks: u8,
    words: &'a [u8],
    capture: Capture<'a>,
    expected: &'a [u8],
}

impl<'a> Case<'a> {
    // Takes the case at the start of a list off it; none where the list ends within it.
    pub fn split_off(list: &mut &'a [u8]) -> Option<Case<'a>>
        ensures { IfSome result (λ c. length list.new.now < length list.old.now) }
    {
        let mut header = list.split_off(..HEADER)?;
        let kind = byte(&mut header)?;
        let shape = byte(&mut header)?;
        let width = byte(&mut header)?;
        let checks = byte(&mut header)?;
        let values = four(&mut header)?;
        let length = four(&mut header)? as usize;
        let seed = four(&mut header)?;
        let expected = four(&mut header)? as usize;
        let words = list.split_off(..four(&mut header)? as usize * 8)?;
        let capture = if shape == STORED {
            Capture::Stored(list.split_off(..length)?)
        } else {
            Capture::ByRule(Rule {
                shape: shape.into(),
                values: u64::from(values),
                length,
                seed,
            })
        };
        let expected = list.split_off(..expected)?;
        Some(Case {
            kind,
            width,
            checks,
            words,
            capture,
            expected,
        })
    }

    // What the case comes to. One with another number of words than its kind has differs, and one of no kind, which is
    // to have nine, is left out.
    pub fn verdict(&self) -> Verdict {
        let kind = Kind::try_from(self.kind).ok();
        let words = kind.map_or(9, |kind| kind.words());
        if self.words.len() / 8 != words {
            return Verdict::Differs;
        }
        let Some(kind) = kind else {
            return Verdict::LeftOut;
        };
        match self.capture {
            Capture::Stored(capture) => self.compare(kind, capture),
            Capture::ByRule(rule) => self.by_rule(kind, rule),
        }
    }

    // With the capture made by its rule.
    fn by_rule(&self, kind: Kind, rule: Rule) -> Verdict {
        if LONGEST < rule.length {
            return Verdict::LeftOut;
        }
        let mut space = [0; LONGEST];
        let capture = &mut space[..rule.length];
        rule.fill(capture);
        self.compare(kind, capture)
    }

    fn compare(&self, kind: Kind, capture: &[u8]) -> Verdict {
        let comparison = Comparison {
            capture,
            width: self.width,
            checks: self.checks,
            words: self.words,
            expected: self.expected,
        };
        Verdict::from(comparison.agrees(kind).unwrap_or(false))
    }
}
