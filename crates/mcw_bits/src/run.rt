// The whole run.
ghost use Rattle.std.specs.Prelude.{◌≡◌};
ghost use Rattle.mcw_bits.specs.Mcw.{outcome_of};

use crate::say::say_majorities;
use crate::windows::roll_all;
use capture::source::Source;
use race::{Leader, Outcome, SILENT, Tally, count, ended, lead};

// The race over the bits of a source.
// Kept: (b) `count` and `lead` in place of `race::Race`, whose guesses are Option<u8>: a bit takes 113 instructions with them, and 124 with it.
pub fn mcw_bits(source: Source) -> Outcome
    ensures { result ≡ outcome_of source.entry }
{
    let mut ring = [0u8; 4096];
    let mut ones = [0usize; 4];
    let mut t = Tally {
        hits: 0,
        run: 0,
        longest: 0,
    };
    let mut scores = [0u64; 4];
    let mut leader = Leader { winner: 0, bar: 1 };
    let mut says = [SILENT; 4];
    for (i, bit) in source.bits().enumerate() {
        let x = u16::from(bit);
        say_majorities(&mut says, &ones, i);
        let winner = leader.winner;
        t = count(t, says[winner], x);
        leader = lead(&mut scores, &says, leader, x);
        roll_all(&mut ones, &ring, i, bit);
        ring[i % 4096] = bit;
    }
    ended(t, leader, &scores)
}
