// What a race comes to: the estimate from its counts, and who predicted.
#![tactic(auto)]

ghost use Rattle.std.specs.Prelude.{◌≡◌};
ghost use Rattle.answer.specs.Results.{rated_answer};
ghost use Rattle.rating.specs.Rating.{rating_of};

use answer::{Rated, Refusal};
use prediction::estimate::prediction_estimate;
use race::Outcome;

// The rating of a race of n predictions over an alphabet of k symbols.
pub fn rate(outcome: Outcome, n: u64, k: u64) -> Result<Rated, Refusal>
    ensures { rated_answer result ≡ rating_of outcome n k }
{
    let estimated = prediction_estimate(outcome.hits, n, outcome.longest, k)?;
    Ok(Rated {
        estimated,
        winner: outcome.winner,
        score: outcome.score,
    })
}
