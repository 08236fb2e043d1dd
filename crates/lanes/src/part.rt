// Lanes made of numbers, and numbers of lanes.
ghost use Rattle.std.specs.Prelude.{◌≡◌, Bool, cond, ℕ, ◌*◌, ◌/◌, ◌%◌, ◌^◌, ◌<◌, eqb};
ghost use Rattle.lanes.specs.Inner.Lanes.{lane, marked, Low, Marks, Begins};

// x in each lane.
pub fn spread(x: u64) -> u64
    requires { x < 65536 }
    ensures { (j : ℕ) → j < 4 → lane result j ≡ x }
{
    x * 0x0001_0001_0001_0001
}

// Each lane without its lowest bit.
pub fn even(a: u64) -> u64
    requires { Low a }
    ensures { (j : ℕ) → j < 4 → lane result j ≡ lane a j / 2 * 2 }
{
    a & 0xfffe_fffe_fffe_fffe
}

// Bit j is 1 where lane j has a mark.
pub fn gather(marks: u64) -> u32
    requires { Marks marks }
    ensures { (result < 16) × ((j : ℕ) → j < 4 → (t : Bool) → lane marks j ≡ marked t → result / 2 ^ j % 2 ≡ cond t 1 0) }
{
    ((marks >> 15 | marks >> 30 | marks >> 45 | marks >> 60) & 15) as u32
}

// The lane that begins at bit `at`.
pub fn lane_at(w: u64, at: u32) -> u64
    requires { at < 64 }
    ensures { (j : ℕ) → at ≡ 16 * j → result ≡ lane w j }
{
    (w >> at) & 0xffff
}

// v in place of the lane that begins at bit `at`.
pub fn put(w: u64, at: u32, v: u64) -> u64
    requires { Begins at × (v < 65536) }
    ensures { (q : ℕ) → at ≡ 16 * q → (j : ℕ) → j < 4 → lane result j ≡ cond (eqb j q) v (lane w j) }
{
    w - (lane_at(w, at) << at) + (v << at)
}
