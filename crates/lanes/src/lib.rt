// Four lanes of 16 bits in one word, worked on all at once: no lane carries into the next.
#![tactic(auto)]

pub mod choose;
pub mod compare;
pub mod part;

// The highest bit of each lane: the marks.
const TOPS: u64 = 0x8000_8000_8000_8000;
