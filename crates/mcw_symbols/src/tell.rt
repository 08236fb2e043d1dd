// The windows' marks as the race takes them.
ghost use Rattle.lanes.specs.Inner.Lanes.{Marks};
ghost use Rattle.mcw_symbols.specs.Inner.Ask.{Taking, part_at};
ghost use Rattle.mcw_symbols.specs.Inner.Tell.{Gathers, Tells};

use lanes::part::gather;
use mcw_bits::FOURTH;
use verdicts::Masks;

// The digits of the marks, of which most places have none.
fn digits_of(marks: u64) -> u32
    requires { Marks marks }
    ensures { Gathers marks result }
{
    if marks == 0 {
        return 0;
    }
    gather(marks)
}

// What the windows' verdicts at place i are: those of `right` were right, and those of `taking` took part.
pub fn tell(right: u64, taking: u64, i: usize) -> Masks
    requires { Marks right × Taking taking (part_at i) }
    ensures { Tells right i result }
{
    let rights = digits_of(right);
    if FOURTH <= i {
        return Masks {
            rights,
            speaking: 15,
        };
    }
    let speaking = gather(taking);
    Masks { rights, speaking }
}
