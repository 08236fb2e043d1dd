// The natural logarithm of a double: "minus infinity at 0 and not a number below 0; at every finite double above 0 it
// is within four units in the last place of the Rust's." The reduction, the polynomial and the constants are those of
// e_log.c of fdlibm:
//   Copyright (C) 1993 by Sun Microsystems, Inc. Permission to use, copy, modify, and distribute this software is
//   freely granted, provided that this notice is preserved.
#![tactic(auto)]

ghost use Rattle.std.specs.Prelude.{◌≡◌, ◌≤◌, ◌<◌};
ghost use Rattle.std.specs.Float.{binary64};
ghost use Rattle.std.specs.Float.Ieee.{of_int, minus};
ghost use Rattle.sqrt.specs.Inner.Steps.{units_of};
ghost use Rattle.ln.specs.Ln as Ln;
ghost use Rattle.ln.specs.Inner.Steps.{ln_at};

use sqrt::significand::Significand;

// The coefficients of fdlibm's polynomial.
const LG1: f64 = 6.666666666666735130e-01;

const LG2: f64 = 3.999999999940941908e-01;

const LG3: f64 = 2.857142874366239149e-01;

const LG4: f64 = 2.222219843214978396e-01;

const LG5: f64 = 1.818357216161805012e-01;

const LG6: f64 = 1.531383769920937332e-01;

const LG7: f64 = 1.479819860511658591e-01;

// ln 2 in two parts: the first has so few digits that its product with an exponent is exact.
const LN2_HI: f64 = 6.93147180369123816490e-01;

const LN2_LO: f64 = 1.90821492927058770002e-10;

// The polynomial in z = s * s, its odd and its even powers apart.
fn tail(z: f64) -> f64
    ensures { result ≡ Ln.tail z }
{
    let w = z * z;
    let odd = z * (LG1 + w * (LG3 + w * (LG5 + w * LG7)));
    let even = w * (LG2 + w * (LG4 + w * LG6));
    odd + even
}

// k * ln 2 + ln (1 + f), the small parts first.
fn series(k: f64, f: f64) -> f64
    ensures { result ≡ Ln.series k f }
{
    let half_square = 0.5 * f * f;
    let s = f / (2.0 + f);
    let r = tail(s * s);
    s * (half_square + r) + k * LN2_LO - half_square + f + k * LN2_HI
}

// The exponent of 2^place smallest doubles, 2^-1074 each.
fn exponent_of(place: u64) -> f64
    requires { place ≤ 3000 }
    ensures { result ≡ of_int binary64 (minus place 1074) }
{
    (place as i64 - 1074) as f64
}

// The logarithm of digits / 2^52 times 2^place smallest doubles. From √2 up, which is 6369051672525773 / 2^52 but for
// less than 2^-52, digits / 2^52 is halved. 1022 and 1021 in the exponent's field, with the leading one of the digits
// added, are those of numbers from 1 and from 1/2 up.
fn reduced(x: Significand) -> f64
    ensures { result ≡ ln_at x.digits x.place }
{
    let q = x.digits;
    let place = x.place;
    if q < 6369051672525773 {
        series(
            exponent_of(place),
            f64::from_bits(q + 0x3fe0_0000_0000_0000) - 1.0,
        )
    } else {
        series(
            exponent_of(place + 1),
            f64::from_bits(q + 0x3fd0_0000_0000_0000) - 1.0,
        )
    }
}

// The logarithm of the finite number above 0 that has the pattern bits.
fn positive(bits: u64) -> f64
    requires { (0 < bits) × (bits < 0x7ff0_0000_0000_0000) }
    ensures { result ≡ Ln.ln_units (units_of bits) }
{
    reduced(Significand::of_pattern(bits))
}

// ln x.
pub fn ln(x: f64) -> f64
    ensures { result ≡ Ln.ln_of x }
{
    if x < 0.0 {
        return f64::NAN;
    }
    if x == 0.0 {
        return f64::NEG_INFINITY;
    }
    if !x.is_finite() {
        return x; // not a number, or the infinity
    }
    positive(x.to_bits())
}
