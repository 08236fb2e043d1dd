// MultiMMC over a general alphabet (SP 800-90B 6.3.9): sixteen levels count which symbol followed their contexts, place by place.
#![tactic(auto)]

mod level;
mod look;
pub mod place;
mod tables;

// How many numbers the seventeen tables take.
pub const STORE: usize = 11_141_120;

// The tables, one after the other, as they are lent.
pub type Store = [u32; STORE];
