// The MultiMCW report: standard input as a literal capture, which has no width, and one line of what it comes to.
#![tactic(auto)]

ghost use Rattle.std.specs.Prelude.{◌≡◌};
ghost use Rattle.answer.specs.Results.{rated_answer};
ghost use Rattle.mcw_report.specs.Report.{report_of, report_output};

use answer::{Answer, Rated, Refusal};
use std::io;

// The largest number of symbols that is reported on.
pub const REPORT_LIMIT: usize = 16_384;

// One symbol more tells that there are too many.
const ROOM: usize = REPORT_LIMIT + 1;

// The answer of the report. The symbols are translated into `out`.
#[tactic(auto, unfolding(crate::specs::Report::report_of, crate::specs::Report::report_output))]
pub fn reported(symbols: &[u8], out: &mut [u8]) -> Result<Rated, Refusal>
    ensures answer { rated_answer result ≡ report_of symbols.now out.old }
    ensures output { out.new ≡ report_output symbols.now out.old }
{
    if REPORT_LIMIT < symbols.len() {
        return Err(Refusal::TooLong);
    }
    multi_mcw::multi_mcw_literal(symbols, out)
}

// Writes the line of an answer.
fn print(rt: &impl Print, a: Answer) -> io::Result<()> {
    let mut text = [0u8; report_line::LONGEST];
    match report_line::line(a, &mut text) {
        Some(n) => rt.write_all(&text[..n]),
        None => Ok(()),
    }
}

// Reads the capture and writes its line. A read or a write that fails ends it.
pub fn report(rt: &(impl Input + Print)) -> io::Result<()> {
    let mut symbols = [0; ROOM];
    let mut input = rt.reader();
    let n = reading::fill(&mut input, &mut symbols)?;
    let mut out = [0; ROOM];
    print(rt, reported(&symbols[..n], &mut out).into())
}
