// How many cases were compared and how many differ, and what is printed of it.
use crate::kind::KINDS;
use std::io;

// What a case comes to.
#[derive(Clone, Copy, PartialEq, Eq)]
pub enum Verdict {
    Agrees,
    Differs,
    LeftOut,
}

impl From<bool> for Verdict {
    fn from(agrees: bool) -> Verdict {
        if agrees {
            Verdict::Agrees
        } else {
            Verdict::Differs
        }
    }
}

#[derive(Clone, Copy, Default)]
struct Row {
    compared: u64,
    differ: u64,
}

// A row for each number of a kind. Row 0 has what was left out, and what differs of all kinds.
#[derive(Clone, Copy, Default)]
pub struct Tally {
    rows: [Row; 16],
}

impl Tally {
    fn add(&mut self, number: u8, compared: u64, differ: u64) {
        if let Some(row) = self.rows.get_mut(usize::from(number)) {
            row.compared = row.compared.saturating_add(compared);
            row.differ = row.differ.saturating_add(differ);
        }
    }

    // Counts a case of a kind's number.
    pub fn count(&mut self, number: u8, verdict: Verdict) {
        match verdict {
            Verdict::LeftOut => self.add(0, 1, 0),
            Verdict::Agrees => self.add(number, 1, 0),
            Verdict::Differs => {
                self.add(number, 1, 1);
                self.add(0, 0, 1);
            }
        }
    }

    // `NAME 1234 compared, 0 differ` for each kind, then `0 left out`, and `0 differ`.
    pub fn print(&self, rt: &impl Print) -> io::Result<()> {
        for (kind, row) in KINDS.iter().zip(&self.rows[1..]) {
            println!(rt; "{kind} {} compared, {} differ", row.compared, row.differ)?;
        }
        println!(rt; "{} left out", self.rows[0].compared)?;
        println!(rt; "{} differ", self.rows[0].differ)
    }
}
