// MultiMMC on bits (SP 800-90B 6.3.9), the whole run: the sixteen levels race, place by place.
#![tactic(auto)]

ghost use Rattle.std.specs.Prelude.{◌≡◌, List, ℕ, length, replicate};
ghost use Rattle.mmc_bits.specs.Levels.{levels, cap};
ghost use Rattle.mmc_bits.specs.Mmc.{outcome_of};
ghost use Rattle.mmc_bits.specs.Space.{size, span};

use capture::source::Source;
use mmc_bits::Counters;
use mmc_bits::place::place;
use race::Outcome;
use verdicts::Race;

// All places, one after the other, from cleared counters on. Not inlined: with its callers' values beside it the loop takes more registers than there
// are.
#[inline(never)]
fn run(source: Source, counters: &mut Counters) -> Outcome
    ghost bits: { List ℕ }
    requires source { source ≡ bits }
    requires cleared { counters.old ≡ replicate (size levels) 0 }
    ensures value { result ≡ outcome_of levels cap bits }
    ensures counters_after { counters.new ≡ span cap 1 levels bits (length bits) }
{
    let mut race: Race<16> = Race::new();
    let mut recent: usize = 0;
    let mut stored: usize = 0;
    for (i, bit) in source.bits().enumerate() {
        let bit = bit as usize;
        let passed = place(counters, i, recent, bit, stored);
        stored = passed.stored;
        recent = (recent * 2 + bit) % 65536;
        race.step(passed.masks);
    }
    race.outcome()
}

// MultiMMC over the bits of `source`. Counters need not be cleared first; those over all places are left.
pub fn mmc_bits(source: Source, counters: &mut Counters) -> Outcome
    ensures value { result ≡ outcome_of levels cap source.entry }
    ensures counters_after { counters.new ≡ span cap 1 levels source.entry (length source.entry) }
{
    counters.fill(0);
    run(source, counters)
}
