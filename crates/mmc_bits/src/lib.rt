// MultiMMC on bits (SP 800-90B 6.3.9): sixteen levels count which bit followed their contexts, place by place.
#![tactic(auto)]

pub mod place;
mod speakers;
mod step;

// How often a pair occurred.
pub type Counter = u32;

// How many counters sixteen levels have.
pub const SIZE: usize = 262_140;

// The counters of the levels, the shortest level's first. A context's two stand side by side: how often 0 followed it, and how often 1.
pub type Counters = [Counter; SIZE];
