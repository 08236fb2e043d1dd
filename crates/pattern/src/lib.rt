// A double's pattern, that of a NaN too: every NaN is written as the one with the sign clear and only the highest digit
// set, and every NaN pattern is read as a NaN.
#![tactic(auto)]

ghost use Rattle.std.specs.Prelude.{◌≡◌};
ghost use Rattle.std.specs.Float.{binary64};
ghost use Rattle.std.specs.Float.Ieee.{of_bits, to_bits};

// The bits of a double.
pub fn bits_of(x: f64) -> u64
    ensures { result ≡ to_bits binary64 x }
{
    std::num::f64_to_bits_with_nan(x)
}

// The double of a pattern.
pub fn double_of(bits: u64) -> f64
    ensures { result ≡ of_bits binary64 bits }
{
    std::num::f64_from_bits_with_nan(bits)
}
