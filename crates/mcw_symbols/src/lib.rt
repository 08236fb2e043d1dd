// MultiMCW over symbols (SP 800-90B 6.3.7): four windows, each of which says the commonest of its samples, race. A word has four lanes of 16 bits,
// one for each window.
#![tactic(auto)]

mod advance;
mod ask;
mod marks;
pub mod run;
mod score;
mod search;
mod tell;
mod windows;

// For each window a symbol that may be the commonest; twice how often it stands there, and 1 more where it is seen later than every symbol that
// stands as often or more often; and a bound, which twice how often any other stands there is not above.
#[derive(Clone, Copy, Default)]
pub struct Candidates {
    pub symbols: u64,
    pub keys: u64,
    pub bounds: u64,
}
