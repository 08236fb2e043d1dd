// Whether ours and the Rust's agree, for each kind of case. None where a word is missing.
use crate::captures::LONGEST;
use crate::expected::Expected;
use crate::kind::Kind;
use crate::numbers::{double, word};
use answer::{Answer, Refusal};
use near::{few_units, same, within};

// How many counters binary MultiMMC needs.
const COUNTERS: usize = 262_140;

// A case with its capture at hand, and the words that are not yet read.
#[derive(Clone, Copy)]
pub struct Comparison<'a> {
    pub capture: &'a [u8],
    pub width: u8,
    pub checks: u8,
    pub words: &'a [u8],
    pub expected: &'a [u8],
}

impl<'a> Comparison<'a> {
    pub fn agrees(self, kind: Kind) -> Option<bool> {
        match kind {
            Kind::Bit => Some(self.bit()),
            Kind::DenseAlphabet => self.translated(dense::dense_alphabet),
            Kind::ValueSortedAlphabet => self.translated(rising::value_sorted_alphabet),
            Kind::RelEpsilonEqual => self.rel_epsilon_equal(),
            Kind::Sqrt => self.sqrt(),
            Kind::Ln => self.ln(),
            Kind::Power => self.power(),
            Kind::MinEntropy => self.min_entropy(),
            Kind::PredictionEstimate => self.prediction_estimate(),
            Kind::CalcPLocal => self.calc_p_local(),
            Kind::MultiMcw => self.multi_mcw(),
            Kind::MultiMcwLiteral => self.multi_mcw_literal(),
            Kind::MultiMmc => self.multi_mmc(),
            Kind::MultiMmcLiteral => self.multi_mmc_literal(),
        }
    }

    // The next word, and its double.
    fn word(&mut self) -> Option<u64> {
        word(&mut self.words)
    }

    fn double(&mut self) -> Option<f64> {
        double(&mut self.words)
    }

    // Every bit of the capture, and none past its end.
    fn bit(self) -> bool {
        let capture = self.capture;
        let width = self.width;
        let all = self.expected.iter().enumerate().all(|(i, bit)| {
            capture::bits::bit(capture, width, i as u64) == Ok(*bit)
        });
        let past = capture::bits::bit(capture, width, self.expected.len() as u64);
        all && past == Err(Refusal::TooShort)
    }

    // A capture translated, and its alphabet's size.
    fn translated<F: Fn(&[u8], &mut [u8]) -> Result<u64, Refusal>>(
        mut self,
        translate: F,
    ) -> Option<bool>
        requires { F.IsAlwaysCallable translate }
    {
        let mut out = [0; LONGEST];
        let size = translate(self.capture, &mut out);
        Some(size == Ok(self.word()?) && out.starts_with(self.expected))
    }

    fn rel_epsilon_equal(mut self) -> Option<bool> {
        let a = self.double()?;
        let b = self.double()?;
        let max_abs = self.double()?;
        let max_rel = self.double()?;
        let max_ulp = self.word()?;
        let yes = self.word()? == 1;
        Some(closeness::rel_epsilon_equal(a, b, max_abs, max_rel, max_ulp) == yes)
    }

    fn sqrt(mut self) -> Option<bool> {
        let ours = sqrt::sqrt(self.double()?);
        Some(same(ours, self.word()?))
    }

    // At most four units in the last place away.
    fn ln(mut self) -> Option<bool> {
        let ours = pattern::bits_of(ln::ln(self.double()?));
        let theirs = pattern::bits_of(self.double()?);
        Some(few_units(ours, theirs, 4))
    }

    fn power(mut self) -> Option<bool> {
        let x = self.double()?;
        let ours = power::power(x, self.word()?);
        Some(same(ours, self.word()?))
    }

    fn min_entropy(mut self) -> Option<bool> {
        let ours = entropy::min_entropy(self.double()?);
        let theirs = self.double()?;
        Some(ours.is_ok_and(|ours| within(ours, theirs, 1e-6)))
    }

    fn calc_p_local(mut self) -> Option<bool> {
        let run = self.word()?;
        let n = self.word()?;
        let ours = bisect::calc_p_local(run, n, self.double()?);
        let theirs = self.double()?;
        Some(ours.is_ok_and(|ours| within(ours.value, theirs, 1e-6)))
    }

    fn same_answer(mut self, ours: Answer) -> Option<bool> {
        Some(Expected::split_off(&mut self.words)?.agrees(ours, self.checks))
    }

    fn prediction_estimate(mut self) -> Option<bool> {
        let c = self.word()?;
        let n = self.word()?;
        let run = self.word()?;
        let k = self.word()?;
        let ours = prediction::estimate::prediction_estimate(c, n, run, k);
        self.same_answer(ours.into())
    }

    fn multi_mcw(self) -> Option<bool> {
        self.same_answer(multi_mcw::multi_mcw(self.capture, self.width).into())
    }

    fn multi_mcw_literal(self) -> Option<bool> {
        let mut out = [0; LONGEST];
        self.same_answer(multi_mcw::multi_mcw_literal(self.capture, &mut out).into())
    }

    fn multi_mmc(self) -> Option<bool> {
        let mut space = [0; COUNTERS];
        self.same_answer(multi_mmc::multi_mmc(self.capture, self.width, &mut space).into())
    }

    // Of at most two values: binary, so that it needs no more than the counters.
    fn multi_mmc_literal(self) -> Option<bool> {
        let mut out = [0; LONGEST];
        let mut space = [0; COUNTERS];
        self.same_answer(multi_mmc::multi_mmc_literal(self.capture, &mut out, &mut space).into())
    }
}
