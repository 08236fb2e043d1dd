// MultiMCW on bits (SP 800-90B 6.3.7): four windows, each of which says the commonest of its samples, race.
#![tactic(auto)]

pub mod run;
pub mod say;
mod windows;

// The windows' sizes, shortest first.
pub const FIRST: usize = 63;

pub const SECOND: usize = 255;

pub const THIRD: usize = 1023;

pub const FOURTH: usize = 4095;

pub const WINDOWS: [usize; 4] = [FIRST, SECOND, THIRD, FOURTH];

// One number for each window.
#[derive(Clone, Copy)]
pub struct Four {
    pub first: usize,
    pub second: usize,
    pub third: usize,
    pub fourth: usize,
}
