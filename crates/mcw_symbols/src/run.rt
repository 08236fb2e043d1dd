// The whole run.
ghost use Rattle.std.specs.Prelude.{◌≡◌};
ghost use Rattle.mcw_bits.specs.Mcw.{outcome_of};
ghost use Rattle.mcw_symbols.specs.Inner.Samples.{Samples};

use crate::Candidates;
use crate::advance::advance;
use crate::ask::ask;
use crate::marks::taking;
use crate::score::score;
use crate::tell::tell;
use crate::windows::{enter, leave_all};
use lanes::part::spread;
use race::{Outcome, Race};

// The race over s, whose samples are below k.
pub fn mcw_symbols(s: &[u8], k: usize) -> Outcome
    requires { Samples s.now k }
    ensures { result ≡ outcome_of s.now }
{
    let mut cnt = [0u64; 256];
    let mut latest = [0u64; 256];
    let mut race = Race::<4>::new();
    let mut c = Candidates::default();
    for (i, sample) in s.iter().enumerate() {
        let x = usize::from(*sample);
        let xs = spread(x as u64);
        let part = taking(i);
        let heard = ask(c, x, xs, part, &cnt, &latest, k);
        let masks = tell(heard.right, part, i);
        score(&mut race, masks);
        let gone = leave_all(&mut cnt, s, i);
        let key = enter(&mut cnt, &mut latest, x, i);
        c = advance(heard.candidates, heard.alike, xs, gone, key);
    }
    race.outcome()
}
