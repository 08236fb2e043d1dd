// The race by the windows' verdicts.
ghost use Rattle.std.specs.Prelude.{◌≡◌, ◌<◌};
ghost use Rattle.race.specs.Inner.Raced.{Room, raced_on};
ghost use Rattle.mcw_symbols.specs.Inner.Score.{number_at, numbers, right};

use race::Race;
use verdicts::Masks;

// The race is told whether a window was right and not which symbol it said: RIGHT comes, and a window says RIGHT, 0 or nothing.
const RIGHT: u8 = 1;

// What window j says by its verdict.
fn verdict_of(masks: Masks, j: usize) -> Option<u8>
    requires { j < 4 }
    ensures { result ≡ number_at masks j }
{
    if (masks.speaking >> j) & 1 == 0 {
        None
    } else {
        Some(((masks.rights >> j) & 1) as u8)
    }
}

fn verdicts(masks: Masks) -> [Option<u8>; 4]
    ensures { result ≡ numbers masks }
{
    [
        verdict_of(masks, 0),
        verdict_of(masks, 1),
        verdict_of(masks, 2),
        verdict_of(masks, 3),
    ]
}

// A place of the race. Where no window was right, which most places are, no score moves.
#[tactic(auto, using(crate::proofs::Scoring::counted_alone, crate::proofs::Scoring::counted_led, crate::proofs::Scoring::counted_room))]
pub fn score(race: &mut Race<4>, masks: Masks)
    requires { Room race.old }
    ensures { race.new ≡ raced_on race.old (numbers masks) right }
{
    let winner = race.winner();
    race.count(verdict_of(masks, winner), RIGHT);
    if masks.rights != 0 {
        race.lead(&verdicts(masks), RIGHT);
    }
}
