// The bounds of the bisection, round by round.
ghost use Rattle.std.specs.Prelude.{◌≡◌};
ghost use Rattle.bisect.specs.Bisection.{advanced, checked, halved, narrowed, opening, turned};

use crate::{is_reached, log_alpha, midpoint_of};
use counts::doubles::{at_most_one, in_closed_interval, in_open_interval, larger_of};
use counts::possible::Runs;
use function::value_at;
use std::ops::ControlFlow;

// The bounds with the values found there, the p between them and the value there.
#[derive(Clone, Copy)]
pub struct Bracket {
    pub lbound: f64,
    pub hbound: f64,
    pub lvalue: f64,
    pub hvalue: f64,
    pub p: f64,
    pub p_val: f64,
}

impl Bracket {
    // The whole domain, with no values found at its ends.
    pub(crate) fn open(ldomain: f64, runs: Runs) -> Bracket
        ensures { result ≡ opening ldomain runs.longest runs.n }
    {
        let p = midpoint_of(ldomain, 1.0);
        Bracket {
            lbound: ldomain,
            hbound: 1.0,
            lvalue: f64::INFINITY,
            hvalue: f64::NEG_INFINITY,
            p,
            p_val: value_at(p, runs),
        }
    }

    // p becomes a bound, the lower one where the value there is above ln 0.99.
    #[tactic(auto, unfolding(crate::specs::Bisection::narrowed))]
    fn narrow(self) -> Bracket
        ensures { result ≡ narrowed self }
    {
        if log_alpha() < self.p_val {
            Bracket {
                lbound: self.p,
                lvalue: self.p_val,
                ..self
            }
        } else {
            Bracket {
                hbound: self.p,
                hvalue: self.p_val,
                ..self
            }
        }
    }

    // The bounds with the next p, half way, and the value there.
    #[tactic(auto, unfolding(crate::specs::Bisection::halved))]
    fn halve(self, runs: Runs) -> Bracket
        ensures { result ≡ halved self runs.longest runs.n }
    {
        let p = midpoint_of(self.lbound, self.hbound);
        Bracket {
            p,
            p_val: value_at(p, runs),
            ..self
        }
    }

    // The last checks of a round: p strictly within its bounds, no cycle, and the value there within the values of the
    // bounds.
    #[tactic(auto, unfolding(crate::specs::Bisection::advanced))]
    fn advance(self, next: Bracket) -> ControlFlow<f64, Bracket>
        ensures { result ≡ advanced self next }
    {
        if !in_open_interval(next.p, self.lbound, self.hbound)
            || self.p == next.p
            || !in_closed_interval(next.p_val, self.lvalue, self.hvalue)
        {
            return ControlFlow::Break(self.hbound);
        }
        ControlFlow::Continue(next)
    }

    // The checks on bounds that were just narrowed.
    #[tactic(auto, unfolding(crate::specs::Bisection::checked))]
    fn check(self, ldomain: f64, runs: Runs) -> ControlFlow<f64, Bracket>
        ensures { result ≡ checked self ldomain runs.longest runs.n }
    {
        if self.lbound >= self.hbound {
            return ControlFlow::Break(at_most_one(larger_of(self.lbound, self.hbound)));
        }
        if !in_closed_interval(self.lbound, ldomain, 1.0)
            || !in_closed_interval(self.hbound, ldomain, 1.0)
            || !in_closed_interval(log_alpha(), self.lvalue, self.hvalue)
        {
            return ControlFlow::Break(1.0);
        }
        self.advance(self.halve(runs))
    }

    // One round: the solution, or narrower bounds.
    #[tactic(auto, unfolding(crate::specs::Bisection::turned))]
    pub(crate) fn round(self, ldomain: f64, runs: Runs) -> ControlFlow<f64, Bracket>
        ensures { result ≡ turned self ldomain runs.longest runs.n }
    {
        if is_reached(self.p_val) {
            return ControlFlow::Break(self.p);
        }
        self.narrow().check(ldomain, runs)
    }
}
