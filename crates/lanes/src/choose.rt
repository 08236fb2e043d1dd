// Choosing lane by lane, without a branch.
ghost use Rattle.std.specs.Prelude.{◌≡◌, Bool, cond, ℕ, ◌*◌, ◌/◌, ◌-◌, ◌<◌, max};
ghost use Rattle.lanes.specs.Inner.Lanes.{lane, marked, Low, Marks, Losable};

use crate::compare::at_least;

// a where there is a mark, b elsewhere: a mark less its lowest bit is a mask of the bits below the mark.
pub fn pick(marks: u64, a: u64, b: u64) -> u64
    requires { Marks marks × (Low a × Low b) }
    ensures { (j : ℕ) → j < 4 → (t : Bool) → lane marks j ≡ marked t → lane result j ≡ cond t (lane a j) (lane b j) }
{
    b ^ ((a ^ b) & (marks - (marks >> 15)))
}

pub fn larger(a: u64, b: u64) -> u64
    requires { Low a × Low b }
    ensures { (j : ℕ) → j < 4 → lane result j ≡ max (lane a j) (lane b j) }
{
    pick(at_least(a, b), a, b)
}

// Where there is a mark, m without its lowest bit and less 2; m elsewhere.
pub fn lose(marks: u64, m: u64) -> u64
    requires { Losable marks m }
    ensures { (j : ℕ) → j < 4 → (t : Bool) → lane marks j ≡ marked t → lane result j ≡ cond t (lane m j / 2 * 2 - 2) (lane m j) }
{
    let e = marks >> 15;
    (m | e) - 3 * e
}
