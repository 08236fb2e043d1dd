// Replays a fixed list of the Rust's answers, data/answers.bin, and prints for each kind of case how many were compared
// and how many differ. The list's form stands in host/src/bin/sample/main.rs, which writes it.
#![tactic(auto)]

mod captures;
mod case;
mod compare;
mod expected;
mod kind;
mod list;
mod numbers;
mod tally;

use case::Case;
use std::fs::File;
use std::io;
use tally::Tally;

// Counts every case of the list, up to its end or to a case that it ends within, which is none.
fn replay(list: &[u8], tally: &mut Tally) -> Option<()> {
    let mut rest = list;
    // Kept: (d) cases differ in length, and each is taken off the rest.
    while !rest.is_empty() {
        let case = Case::split_off(&mut rest)?;
        tally.count(case.kind, case.verdict());
    }
    Some(())
}

// Replays the list and prints what it comes to.
fn report(rt: &impl Print, list: &[u8]) -> io::Result<()> {
    let mut tally = Tally::default();
    if replay(list, &mut tally).is_none() {
        println!(rt; "answers.bin ends within a case")?;
    }
    tally.print(rt)
}

fn main(rt: HostRuntime) -> io::Result<()> {
    let mut file = File::open(&rt, "answers.bin")?;
    let mut list = list::room();
    let n = reading::fill(&mut file, &mut list)?;
    report(&rt, &list[..n])
}
