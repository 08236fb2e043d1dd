// When the replay counts two doubles as the same.
#![tactic(auto)]

ghost use Rattle.std.specs.Prelude.{◌≡◌};
ghost use Rattle.near.specs.Inner.Near.{few_units, special, within as Near·within, same as Near·same};

// Whether a double has the bits of a pattern, or both are not a number.
#[tactic(auto, unfolding(crate::specs::Inner::Near::same))]
pub fn same(x: f64, bits: u64) -> bool
    ensures { result ≡ Near·same x bits }
{
    pattern::bits_of(x) == pattern::bits_of(pattern::double_of(bits))
}

// Whether x and y are at most `most` apart.
#[tactic(auto, unfolding(crate::specs::Inner::Near::within))]
pub fn within(x: f64, y: f64, most: f64) -> bool
    ensures { result ≡ Near·within x y most }
{
    x - y <= most && y - x <= most
}

// Whether a pattern is that of an infinity or of a NaN.
fn is_special(bits: u64) -> bool
    ensures { result ≡ special bits }
{
    0x7ff0_0000_0000_0000 <= bits % 0x8000_0000_0000_0000
}

// Whether two patterns are at most `most` units in the last place apart; infinities and NaNs are the same or not.
#[tactic(auto, unfolding(crate::specs::Inner::Near::few_units))]
pub fn few_units(a: u64, b: u64, most: u64) -> bool
    ensures { result ≡ few_units a b most }
{
    if is_special(a) || is_special(b) {
        a == b
    } else {
        a.abs_diff(b) <= most
    }
}
