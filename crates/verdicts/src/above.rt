// What the deficits have above their low digits: a number for each sub-predictor, in units of 64.
ghost use Rattle.std.specs.Prelude.{◌≡◌, ◌≤◌};
ghost use Rattle.verdicts.specs.Inner.Planes.{Shiftable, Shifted, signs};

// All numbers gain `gained`, and those at the digits of `less` lose 1. Not inlined: it is seldom asked, and would take the registers of the
// loop over the places.
#[inline(never)]
pub fn shift<const M: usize>(up: &mut [u64; M], less: u32, gained: u64)
    requires { Shiftable up.old less gained }
    ensures { Shifted up.old less gained up.new }
{
    for (j, number) in up.iter_mut().enumerate() {
        *number = *number + gained - ((less >> j) & 1) as u64;
    }
}

// The mask of the numbers that are not 0.
pub fn mask_of<const M: usize>(up: &[u64; M]) -> u32
    requires { M ≤ 16 }
    ensures { result ≡ signs up.now }
{
    let mut far: u32 = 0;
    for j in (0..M).rev() {
        far = far * 2 + (up[j] != 0) as u32;
    }
    far
}
