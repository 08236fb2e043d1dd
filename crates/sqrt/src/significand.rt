// A double above 0 by the digits of its significand.
ghost use Rattle.std.specs.Prelude.{◌≡◌, ◌-◌, ◌*◌, ◌^◌, ◌≤◌, ◌<◌};
ghost use Rattle.std.specs.Float.Ieee.{size};
ghost use Rattle.sqrt.specs.Inner.Steps.{units_of};

// digits / 2^52 times 2^place smallest doubles, 2^-1074 each: the 53 digits begin with a 1, and place is the place of
// that one among the smallest doubles.
#[derive(Clone, Copy)]
pub struct Significand {
    pub digits: u64,
    pub place: u64,
    ghost in_range: { (2 ^ 52 ≤ digits) × (digits < 2 ^ 53) × (place ≤ 2097) },
}

impl Significand {
    // Of the finite number above 0 that has the pattern bits.
    pub fn of_pattern(bits: u64) -> Significand
        requires { (0 < bits) × (bits < 0x7ff0_0000_0000_0000) }
        ensures { units_of bits * 2 ^ 52 ≡ result.digits * 2 ^ result.place }
    {
        let fraction = bits % 0x10_0000_0000_0000;
        let exponent = bits / 0x10_0000_0000_0000;
        if exponent == 0 {
            return Significand::of_subnormal(fraction);
        }
        Significand {
            digits: fraction + 0x10_0000_0000_0000,
            place: exponent + 51,
        }
    }

    // Of as many smallest doubles as a subnormal has.
    fn of_subnormal(fraction: u64) -> Significand
        requires { (0 < fraction) × (fraction < 2 ^ 52) }
        ensures { fraction * 2 ^ 52 ≡ result.digits * 2 ^ result.place }
    {
        let shift = shift_of(fraction);
        Significand {
            digits: fraction << shift,
            place: 52 - shift,
        }
    }
}

// By how many places a subnormal's fraction is shifted left to have the 53 digits of a significand. What has as many
// is not shifted.
pub fn shift_of(fraction: u64) -> u64
    ensures { result ≡ 53 - size fraction }
{
    u64::from(fraction.leading_zeros()).saturating_sub(11)
}
