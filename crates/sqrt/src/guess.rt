// A guess at a root, by arithmetic on `f64`. Nothing is promised of how near it is: the root is found from any guess, in
// less time from a near one.
ghost use Rattle.std.specs.Prelude.{◌^◌, ◌≤◌, ◌<◌};

const TWO_52: f64 = 4503599627370496.0;

const TWO_104: f64 = 20282409603651670423947251286016.0;

const TWO_105: f64 = 40564819207303340847894502572032.0;

const ROOT_TWO_105: f64 = 6369051672525772.0;

// √t for a t from 1 to 2, within one part in 900,000. The terms stand in pairs, so that none waits for all before it.
fn series(t: f64) -> f64 {
    let t2 = t * t;
    let low = (0.2917142705571648 + 1.0349035363806559 * t)
        + t2 * (0.20099361225092956 * t - 0.48364710844000243);
    low + t2 * t2 * (0.005171562497307659 * t - 0.049134795016211545)
}

// A better guess at √z than s. The root is s / √(1 - h), where h is 1 - s^2 / z; here by the terms up to h^2.
fn better(z: f64, s: f64) -> f64 {
    let h = (z - s * s) * (1.0 / z);
    s + s * h * (0.5 + 0.375 * h)
}

// A whole s from 2^52 up to but not 2^53, by the last 52 digits of its pattern; for any other s some number of that
// range.
fn whole(s: f64) -> u64
    ensures { (2 ^ 52 ≤ result) × (result < 2 ^ 53) }
{
    if s.is_nan() {
        return 0x10_0000_0000_0000;
    }
    s.to_bits() % 0x10_0000_0000_0000 + 0x10_0000_0000_0000
}

// A guess at the whole number nearest to √(2^52 q), or, where odd, to √(2^53 q).
pub fn guess(q: u64, odd: bool) -> u64
    requires { q < 2 ^ 53 }
    ensures { (2 ^ 52 ≤ result) × (result < 2 ^ 53) }
{
    let t = f64::from_bits(q + 0x3fe0_0000_0000_0000); // q / 2^52
    if odd {
        whole(better(TWO_105 * t, ROOT_TWO_105 * series(t)))
    } else {
        whole(better(TWO_104 * t, TWO_52 * series(t)))
    }
}
