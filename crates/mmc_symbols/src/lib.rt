// MultiMMC over a general alphabet (SP 800-90B 6.3.9), the whole run: the sixteen levels race, place by place.
#![tactic(auto)]

ghost use Rattle.std.specs.Prelude.{◌≡◌, ◌≤◌, length, replicate};
ghost use Rattle.capture.specs.Limit.{symbol_limit};
ghost use Rattle.mmc_bits.specs.Levels.{levels, cap};
ghost use Rattle.mmc_store.specs.Mmc.{outcome_of};
ghost use Rattle.mmc_store.specs.Space.{size};
ghost use Rattle.mmc_store.specs.Inner.Places.{store as store_size};

use mmc_store::Store;
use mmc_store::place::at_place;
use race::{Outcome, Race};

// How many numbers sixteen levels are lent. The tables take the first of them.
pub const SIZE: usize = 16_777_216;

// The lent numbers.
pub type Space = [u32; SIZE];

// All places, one after the other, from cleared numbers on.
fn run(s: &[u8], store: &mut Store) -> Outcome
    requires { length s.now ≤ symbol_limit }
    ensures value { result ≡ outcome_of levels cap s.now }
    ensures long { length store.new ≡ store_size }
{
    store.fill(0);
    let mut entries = [0usize; 16];
    let mut nodes = [0usize; 17];
    let mut race: Race<16> = Race::new();
    for (place, x) in s.iter().enumerate() {
        let mut guesses = [None; 16];
        at_place(s, store, &mut entries, &mut nodes, &mut guesses, place);
        race.step(&guesses, *x);
    }
    race.outcome()
}

// MultiMMC over the symbols s. Space need not be cleared first, and is left zero.
pub fn mmc_symbols(s: &[u8], space: &mut Space) -> Outcome
    requires { length s.now ≤ symbol_limit }
    ensures value { result ≡ outcome_of levels cap s.now }
    ensures space_after { space.new ≡ replicate (size levels) 0 }
{
    let outcome = run(s, space.first_chunk_mut().unwrap());
    space.fill(0);
    outcome
}
