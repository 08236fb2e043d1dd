// Comparisons of doubles as prediction.rs makes them.
ghost use Rattle.std.specs.Prelude.{◌≡◌};
ghost use Rattle.counts.specs.Doubles.{at_most_one, in_closed, in_open, larger};

// `x.min(1.0)`: 1 for a NaN.
pub fn at_most_one(x: f64) -> f64
    ensures { result ≡ at_most_one x }
{
    x.min(1.0)
}

// `a.max(b)` of a number a: a where b is a NaN.
pub fn larger_of(a: f64, b: f64) -> f64
    ensures { result ≡ larger a b }
{
    // Kept: std's max may give either of 0.0 and -0.0, and b for an a that is a NaN.
    if a < b { b } else { a }
}

// `INCLOSEDINTERVAL(x, a, b)`.
pub fn in_closed_interval(x: f64, a: f64, b: f64) -> bool
    ensures { result ≡ in_closed x a b }
{
    if a > b {
        b <= x && x <= a
    } else {
        a <= x && x <= b
    }
}

// `INOPENINTERVAL(x, a, b)`.
pub fn in_open_interval(x: f64, a: f64, b: f64) -> bool
    ensures { result ≡ in_open x a b }
{
    if a > b {
        b < x && x < a
    } else {
        a < x && x < b
    }
}
