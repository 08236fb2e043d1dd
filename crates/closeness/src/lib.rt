// When two doubles are close (Rust: prediction.rs, `rel_epsilon_equal`).
#![tactic(auto)]

ghost use Rattle.std.specs.Prelude.{◌≡◌};
ghost use Rattle.std.specs.Float.{NotNan};
ghost use Rattle.closeness.specs.Close as Close;

// "Is relative closeness going to be nonsense?" A subnormal has few digits, and an infinite difference has none.
#[tactic(auto, using(crate::proofs::Signs::std_is), unfolding(crate::specs::Close::relative_is_nonsense))]
fn relative_is_nonsense(abs_a: f64, diff: f64, measure: f64) -> bool
    ensures { result ≡ Close.relative_is_nonsense abs_a diff measure }
{
    abs_a < f64::MIN_POSITIVE
        || diff < f64::MIN_POSITIVE
        || diff.is_infinite()
        || measure < f64::MIN_POSITIVE
}

// a and b are of one sign and at most max_ulp doubles apart, a no farther from 0 than b.
#[tactic(auto, using(crate::proofs::Signs::std_is), unfolding(crate::specs::Close::few_apart))]
fn few_apart(a: f64, b: f64, max_ulp: u64) -> bool
    requires { NotNan a × NotNan b }
    ensures { result ≡ Close.few_apart a b max_ulp }
{
    a.is_sign_negative() == b.is_sign_negative()
        && b.abs().to_bits().saturating_sub(a.abs().to_bits()) <= max_ulp
}

// The same question of finite doubles that differ, a no farther from 0 than b.
#[tactic(auto, using(crate::proofs::Signs::std_is), unfolding(crate::specs::Close::close_ordered))]
fn close_ordered(a: f64, b: f64, max_abs_factor: f64, max_rel_factor: f64, max_ulp: u64) -> bool
    requires { NotNan a × NotNan b }
    ensures { result ≡ Close.close_ordered a b max_abs_factor max_rel_factor max_ulp }
{
    let diff = (b - a).abs();
    let measure = b.abs() * max_rel_factor;
    if relative_is_nonsense(a.abs(), diff, measure) {
        diff <= max_abs_factor
    } else {
        diff <= measure || few_apart(a, b, max_ulp)
    }
}

// Whether a and b are close: equal, or near each other absolutely, relatively, or by the doubles that lie between them.
#[tactic(auto, using(crate::proofs::Signs::std_is), unfolding(crate::specs::Close::rel_epsilon_equal))]
pub fn rel_epsilon_equal(
    a: f64,
    b: f64,
    max_abs_factor: f64,
    max_rel_factor: f64,
    max_ulp: u64,
) -> bool
    ensures { result ≡ Close.rel_epsilon_equal a b max_abs_factor max_rel_factor max_ulp }
{
    if a.is_nan() || b.is_nan() {
        return false;
    }
    if a == b {
        return true;
    }
    if a.is_infinite() || b.is_infinite() {
        return false;
    }
    if a.abs() > b.abs() {
        close_ordered(b, a, max_abs_factor, max_rel_factor, max_ulp)
    } else {
        close_ordered(a, b, max_abs_factor, max_rel_factor, max_ulp)
    }
}
