// The MultiMCW report of document 01, run on 4,096 zero bytes.
// Kept: (a) a program runs on one stdin, and what it prints may not change; report, report_empty and report_long differ in those alone.
#![tactic(auto)]

use std::io;

fn main(rt: HostRuntime) -> io::Result<()> {
    mcw_report::report(&rt)
}
