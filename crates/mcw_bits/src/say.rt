// What the windows say of a place.
ghost use Rattle.std.specs.Prelude.{◌≡◌, ◌<◌, length};
ghost use Rattle.mcw_bits.specs.Inner.Ones.{Small};
ghost use Rattle.mcw_bits.specs.Inner.Say.{Hushed, Sayings, Symbols, Votes, sayings};

use crate::windows::majority;
use crate::{FOURTH, Four, WINDOWS};
use race::SILENT;

// The commonest bit of each window.
#[tactic(auto, using(crate::proofs::Sayings::votes_start, crate::proofs::Sayings::votes_next))]
fn vote(says: &mut [u16; 4], ones: &[usize; 4])
    requires small { Small ones.now }
    requires four { length says.old ≡ 4 }
    ensures { Votes ones.now 4 says.new }
{
    for j in 0..4 {
        says[j] = majority(ones[j], WINDOWS[j]);
    }
}

// A window of size w takes part from place w on.
#[tactic(auto, using(crate::proofs::Sayings::hushed_start, crate::proofs::Sayings::hushed_silent, crate::proofs::Sayings::hushed_kept))]
fn hush(says: &mut [u16; 4], i: usize)
    requires { length says.old ≡ 4 }
    ensures { Hushed says.old i 4 says.new }
{
    for j in 0..4 {
        if i < WINDOWS[j] {
            says[j] = SILENT;
        }
    }
}

// What the four windows say of place i, by the ones in each.
#[tactic(auto, using(crate::proofs::Sayings::says_hushed, crate::proofs::Sayings::says_all))]
pub fn say_majorities(says: &mut [u16; 4], ones: &[usize; 4], i: usize)
    requires small { Small ones.now }
    requires four { length says.old ≡ 4 }
    ensures { Sayings ones.now i says.new }
{
    vote(says, ones);
    if i < FOURTH {
        hush(says, i);
    }
}

// What the four windows say of place i, where f are their commonest symbols.
#[tactic(auto, using(crate::proofs::Sayings::symbols_hushed, crate::proofs::Sayings::symbols_all))]
pub fn say_all(g: &mut [u16; 4], f: Four, i: usize)
    requires { (length g.old ≡ 4) × Symbols f }
    ensures { g.new ≡ sayings f i }
{
    *g = [
        f.first as u16,
        f.second as u16,
        f.third as u16,
        f.fourth as u16,
    ];
    if i < FOURTH {
        hush(g, i);
    }
}
