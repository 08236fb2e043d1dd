// Comparing lane by lane: the answer is a mark in each lane of which it holds.
ghost use Rattle.std.specs.Prelude.{◌≡◌, ℕ, ◌<◌, eqb, leb};
ghost use Rattle.lanes.specs.Inner.Lanes.{lane, marked, Low};

use crate::TOPS;

// Where a and b are alike: only there does the subtraction leave the mark.
pub fn same(a: u64, b: u64) -> u64
    requires { Low a × Low b }
    ensures { (j : ℕ) → j < 4 → lane result j ≡ marked (eqb (lane a j) (lane b j)) }
{
    (TOPS - (a ^ b)) & TOPS
}

// Where a is b or more: the mark put onto a is borrowed from only where b is larger.
pub fn at_least(a: u64, b: u64) -> u64
    requires { Low a × Low b }
    ensures { (j : ℕ) → j < 4 → lane result j ≡ marked (leb (lane b j) (lane a j)) }
{
    ((a | TOPS) - b) & TOPS
}
