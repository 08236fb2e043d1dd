// The marks of the windows that take part.
ghost use Rattle.std.specs.Prelude.{◌≡◌, ℕ, ◌<◌, leb};
ghost use Rattle.mcw_bits.specs.Mcw.{size};
ghost use Rattle.lanes.specs.Inner.Lanes.{lane, marked};

use mcw_bits::{FIRST, FOURTH, SECOND, THIRD};

// The windows that take part at place i.
pub fn taking(i: usize) -> u64
    ensures { (j : ℕ) → j < 4 → lane result j ≡ marked (leb (size j) i) }
{
    if FOURTH <= i {
        return 0x8000_8000_8000_8000;
    }
    if THIRD <= i {
        return 0x8000_8000_8000;
    }
    if SECOND <= i {
        return 0x8000_8000;
    }
    if FIRST <= i { 0x8000 } else { 0 }
}
