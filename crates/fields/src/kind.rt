// The kinds of record that hold an answer.
ghost use Rattle.std.specs.Prelude.{◌≡◌};
ghost use Rattle.envelope.specs.Envelope.{following};
ghost use Rattle.fields.specs.Fields.{answer_size, fields_of, tells};
ghost use Rattle.fields.specs.Kind.{kind_number};

use answer::Refusal;

// In `Unnamed` who predicted is absent.
#[derive(Clone, Copy, Debug, PartialEq, Eq)]
pub enum Kind {
    Unnamed,
    Named,
}

impl From<Kind> for u64 {
    ghost use Rattle.std.specs.Prelude.{◌≡◌};
    ghost use Rattle.fields.specs.Kind.{kind_number};

    ghost from_gives = { λ kind number. number ≡ kind_number kind };

    fn from(kind: Kind) -> u64 {
        match kind {
            Kind::Unnamed => 1,
            Kind::Named => 2,
        }
    }
}

impl TryFrom<u64> for Kind {
    ghost use Rattle.std.specs.Prelude.{◌≡◌, false, MatchResult};
    ghost use Rattle.answer.specs.declared.Refusal.TheVariants.{BadFrame};
    ghost use Rattle.fields.specs.Fields.{is_kind};
    ghost use Rattle.fields.specs.Kind.{kind_number};

    type Error = Refusal;

    ghost try_from_gives = { λ number found. MatchResult found
        (λ kind. kind_number kind ≡ number)
        (λ refusal. (refusal ≡ BadFrame) × (is_kind number ≡ false)) };

    #[tactic(auto, unfolding(crate::specs::Fields::is_kind))]
    fn try_from(number: u64) -> Result<Kind, Refusal> {
        match number {
            1 => Ok(Kind::Unnamed),
            2 => Ok(Kind::Named),
            _ => Err(Refusal::BadFrame),
        }
    }
}

impl Kind {
    // Whether it tells who predicted.
    #[tactic(auto, unfolding(crate::specs::Fields::tells))]
    pub fn tells_winner(self) -> bool
        ensures { result ≡ tells (kind_number self) }
    {
        match self {
            Kind::Unnamed => false,
            Kind::Named => true,
        }
    }

    // How many bytes a record takes.
    #[tactic(auto, unfolding(crate::specs::Fields::fields_of, crate::specs::Fields::tells, envelope::specs::Envelope::body_size))]
    pub fn size(self) -> usize
        ensures { result ≡ answer_size (kind_number self) }
    {
        match self {
            Kind::Unnamed => 61,
            Kind::Named => 66,
        }
    }

    // How many of them stand behind the length field.
    #[tactic(auto, unfolding(crate::specs::Fields::fields_of, crate::specs::Fields::tells, envelope::specs::Envelope::body_size))]
    pub fn following(self) -> u64
        ensures { result ≡ following (fields_of (kind_number self)) }
    {
        self.size() as u64 - 4
    }
}
