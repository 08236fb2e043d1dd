// The running test: a start, and a sample.
ghost use Rattle.std.specs.Prelude.{◌≡◌, ◌↔◌, IsTrue};
ghost use Rattle.answer.specs.Results.{number_in};
ghost use Rattle.repetition.specs.Repetition.{Sampled, alarm_of, begin_number, begun};
ghost use Rattle.repetition.specs.Inner.Counted.{counted};
ghost use Rattle.repetition.specs.Inner.Started.{Started};

use answer::{DONE, Refusal};
use cutoff::{cutoff_for, is_cutoff};

// The running test's state, lent by the host; all 0 where it was never started.
// Kept: (a) the C interface has this layout, and takes any state, so that no invariant holds of it.
#[repr(C)]
#[derive(Clone, Copy)]
pub struct RepetitionTest {
    pub cutoff: u16,
    pub last_sample: u16,
    pub count: u16,
}

// Whether the alarm stands, or a refusal, as C has it.
// Kept: (a) the C interface has this layout and these names.
#[repr(C)]
#[derive(Clone, Copy)]
pub struct Alarm {
    pub number: u64,
    pub alarm: u64,
}

impl From<Result<bool, Refusal>> for Alarm {
    ghost use Rattle.std.specs.Prelude.{◌≡◌};
    ghost use Rattle.repetition.specs.Repetition.{alarm_of};

    ghost from_gives = { λ heard alarm. alarm ≡ alarm_of heard };

    fn from(heard: Result<bool, Refusal>) -> Alarm {
        match heard {
            Ok(alarm) => Alarm {
                number: DONE,
                alarm: u64::from(alarm),
            },
            Err(refusal) => Alarm {
                number: refusal.number(),
                alarm: 0,
            },
        }
    }
}

impl RepetitionTest {
    // A start, whatever was there before: the cutoff for the entropy, and nothing heard. A refusal leaves what was there.
    pub fn begin(&mut self, entropy: f64) -> Result<(), Refusal>
        ensures number { number_in result ≡ begin_number entropy }
        ensures state { self.new ≡ begun self.old entropy }
    {
        let cutoff = cutoff_for(entropy)?;
        *self = RepetitionTest {
            cutoff,
            last_sample: 0,
            count: 0,
        };
        Ok(())
    }

    // A sample, and whether the alarm stands after it. A refusal leaves the state as it was.
    #[tactic(auto, using(crate::proofs::Hearing::sampled_by, crate::proofs::Hearing::unheard))]
    pub fn hear(&mut self, sample: u8) -> Result<bool, Refusal>
        ensures { Sampled self.old sample (alarm_of result) self.new }
    {
        if !self.is_started() {
            return Err(Refusal::BadState);
        }
        let sample = u16::from(sample);
        self.count = self.counted_with(sample);
        self.last_sample = sample;
        Ok(self.count == self.cutoff)
    }

    // Whether a start and samples could have left the state.
    fn is_started(self) -> bool
        ensures { IsTrue result ↔ Started self }
    {
        if !is_cutoff(self.cutoff) {
            return false;
        }
        if self.cutoff < self.count {
            return false;
        }
        if self.count == 0 {
            return self.last_sample == 0;
        }
        self.last_sample <= 255
    }

    // How many equal samples end with this one, as far as the cutoff.
    #[tactic(auto, unfolding(crate::specs::Inner::Counted::counted))]
    fn counted_with(self, sample: u16) -> u16
        ensures { result ≡ counted self sample }
    {
        if sample != self.last_sample {
            return 1;
        }
        if self.count < self.cutoff {
            return self.count + 1;
        }
        self.count
    }
}
