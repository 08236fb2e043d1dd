// The kinds of case.
ghost use Rattle.std.specs.Prelude.{◌≤◌};

use std::fmt;

#[derive(Clone, Copy, PartialEq, Eq)]
pub enum Kind {
    Bit,
    DenseAlphabet,
    ValueSortedAlphabet,
    RelEpsilonEqual,
    Sqrt,
    Ln,
    Power,
    MinEntropy,
    PredictionEstimate,
    CalcPLocal,
    MultiMcw,
    MultiMcwLiteral,
    MultiMmc,
    MultiMmcLiteral,
}

// In the order of their numbers, which begin with 1.
pub const KINDS: [Kind; 14] = [
    Kind::Bit,
    Kind::DenseAlphabet,
    Kind::ValueSortedAlphabet,
    Kind::RelEpsilonEqual,
    Kind::Sqrt,
    Kind::Ln,
    Kind::Power,
    Kind::MinEntropy,
    Kind::PredictionEstimate,
    Kind::CalcPLocal,
    Kind::MultiMcw,
    Kind::MultiMcwLiteral,
    Kind::MultiMmc,
    Kind::MultiMmcLiteral,
];

// A number that is no kind's.
#[derive(Clone, Copy, Debug)]
pub struct NoKind;

impl TryFrom<u8> for Kind {
    type Error = NoKind;

    fn try_from(number: u8) -> Result<Kind, NoKind> {
        let place = number.checked_sub(1).ok_or(NoKind)?;
        KINDS.get(usize::from(place)).copied().ok_or(NoKind)
    }
}

impl Kind {
    // How many words a case has.
    pub fn words(self) -> usize
        ensures { result ≤ 13 }
    {
        match self {
            Kind::Bit => 0,
            Kind::DenseAlphabet | Kind::ValueSortedAlphabet => 1,
            Kind::Sqrt | Kind::Ln | Kind::MinEntropy => 2,
            Kind::Power => 3,
            Kind::CalcPLocal => 4,
            Kind::RelEpsilonEqual => 6,
            Kind::PredictionEstimate => 13,
            Kind::MultiMcw | Kind::MultiMcwLiteral | Kind::MultiMmc | Kind::MultiMmcLiteral => 9,
        }
    }
}

impl fmt::Display for Kind {
    fn fmt<W: fmt::Write>(&self, f: &mut fmt::Formatter<W>) -> fmt::Result {
        f.write_str(match self {
            Kind::Bit => "bit",
            Kind::DenseAlphabet => "dense_alphabet",
            Kind::ValueSortedAlphabet => "value_sorted_alphabet",
            Kind::RelEpsilonEqual => "rel_epsilon_equal",
            Kind::Sqrt => "sqrt",
            Kind::Ln => "ln",
            Kind::Power => "power",
            Kind::MinEntropy => "min_entropy",
            Kind::PredictionEstimate => "prediction_estimate",
            Kind::CalcPLocal => "calc_p_local",
            Kind::MultiMcw => "multi_mcw",
            Kind::MultiMcwLiteral => "multi_mcw_literal",
            Kind::MultiMmc => "multi_mmc",
            Kind::MultiMmcLiteral => "multi_mmc_literal",
        })
    }
}
