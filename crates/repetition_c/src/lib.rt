// The C interface of the repetition test. Each function is thin: it makes of a method's result what C gets of it.
#![tactic(auto)]

ghost use Rattle.std.specs.Prelude.{◌≡◌};
ghost use Rattle.cutoff.specs.Cutoff.{cutoff_of};
ghost use Rattle.repetition.specs.Repetition.{Sampled, begin_number, begun};

use answer::DONE;
use cutoff::Cutoff;
use repetition::{Alarm, RepetitionTest};

// How many equal samples in a row the alarm stands at, for an entropy in bits per sample.
#[unsafe(no_mangle)]
pub extern "C" fn abutfern_repetition_cutoff(entropy: f64) -> Cutoff
    ensures { result ≡ cutoff_of entropy }
{
    Cutoff::from(cutoff::cutoff_for(entropy))
}

// Starts the test, whatever was heard before. Answers 0, or 5 for the entropy.
#[unsafe(no_mangle)]
pub extern "C" fn abutfern_repetition_start(state: &mut RepetitionTest, entropy: f64) -> u64
    ensures number { result ≡ begin_number entropy }
    ensures state { state.new ≡ begun state.old entropy }
{
    match state.begin(entropy) {
        Ok(()) => DONE,
        Err(refusal) => refusal.number(),
    }
}

// Takes the next sample: 0 and whether the alarm stands after it, or 10 for the state.
#[unsafe(no_mangle)]
pub extern "C" fn abutfern_repetition_sample(state: &mut RepetitionTest, sample: u8) -> Alarm
    ensures { Sampled state.old sample result state.new }
{
    Alarm::from(state.hear(sample))
}
