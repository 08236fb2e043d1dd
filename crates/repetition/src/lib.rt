// The repetition count test of SP 800-90B 4.4.1, at start-up and running: a product of its own, for a handheld. C calls it
// through repetition_c.
#![tactic(auto)]

mod step;

pub use step::{Alarm, RepetitionTest};
