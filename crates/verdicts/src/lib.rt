// The race over verdicts: right, wrong or silent is all that C, the longest run, the scores and the winner need of a guess.
#![tactic(auto)]

mod above;
pub mod place;
mod planes;
mod tally;

pub use place::Race;

// The verdicts on the sub-predictors at a place: digit j of `rights` is 1 where j was right, digit j of `speaking` where it spoke.
#[derive(Clone, Copy)]
pub struct Masks {
    pub rights: u32,
    pub speaking: u32,
}
