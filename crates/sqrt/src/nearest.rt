// The whole number nearest to a root, from a guess that is checked in whole numbers.
ghost use Rattle.std.specs.Prelude.{◌≡◌, ◌+◌, ◌*◌, ◌/◌, ◌^◌, ◌≤◌, ◌<◌, IfSome};
ghost use Rattle.sqrt.specs.Root.{root};

use crate::digits;

// 2^52 m + q - q^2, where that is no less than 0 and q near the root. With q = 2^26 a + b, q^2 is
// 2^52 a^2 + 2^27 a b + b^2.
fn excess(q: u64, m: u64) -> Option<u64>
    requires { (q < 2 ^ 53) × (m < 2 ^ 54) }
    ensures { IfSome result (λ over. over + q * q ≡ m * 2 ^ 52 + q) }
{
    let a = q / 0x400_0000;
    let b = q % 0x400_0000;
    let high = m.checked_sub(a * a)?;
    if 0x4000_0000 <= high {
        return None;
    }
    let low = (high * 0x400_0000 + a).checked_sub(a * b * 2)?;
    if 0x4000_0000 <= low {
        return None;
    }
    (low * 0x400_0000 + b).checked_sub(b * b)
}

// The whole number nearest to √(2^52 m), which is half of the root of 2^54 m, rounded. It is the q for which
// 2^52 m + q - q^2 is from 1 to 2 q; from a q to the next that falls by 2 q. Here q is the guess less one.
pub fn nearest(m: u64, guess: u64) -> u64
    requires { (2 ^ 52 ≤ m) × (m < 2 ^ 54) × (0 < guess) × (guess < 2 ^ 53) }
    ensures { result ≡ (root (m * 2 ^ 54) + 1) / 2 }
{
    let q = guess - 1;
    if let Some(over) = excess(q, m) {
        if 0 < over {
            if over <= 2 * q {
                return q;
            }
            if over <= 4 * q + 2 {
                return q + 1;
            }
            if over <= 6 * q + 6 {
                return q + 2;
            }
        }
    }
    (digits(m) + 1) / 2
}
