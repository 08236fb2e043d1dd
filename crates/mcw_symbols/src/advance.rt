// The candidates of the windows go on by one place.
ghost use Rattle.mcw_symbols.specs.Inner.Advance.{Advanceable, Advances};

use crate::Candidates;
use lanes::choose::{larger, lose, pick};
use lanes::compare::{at_least, same};
use lanes::part::even;

// In each window the sample of `gone` has left, and x comes, which is then there as often as `key` says and is the latest of all. `alike` marks
// where x is the candidate.
pub fn advance(c: Candidates, alike: u64, x: u64, gone: u64, key: u64) -> Candidates
    requires { Advanceable c alike x gone key }
    ensures { Advances c x gone key result }
{
    let m = lose(same(gone, c.symbols), c.keys);
    let leads = at_least(key, m);
    let loser = pick(alike, 0, even(pick(leads, m, key)));
    Candidates {
        symbols: pick(leads, x, c.symbols),
        keys: pick(leads, key, m),
        bounds: larger(loser, c.bounds),
    }
}
