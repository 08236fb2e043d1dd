// The line of the report program: number, C, N, run, k, rounds, then the bits of p_global, p_global', p_local and
// min-entropy in hex.
#![tactic(auto)]

ghost use Rattle.std.specs.Prelude.{◌≡◌, [], ◌∷◌, ◌++◌, ◌+◌, ◌≤◌, ◌<◌, ◌↔◌, length, IsNone, IfSome, unwrap_or};
ghost use Rattle.arrayvec.specs.ArrayVec.{array_vec_len};
ghost use Rattle.report_line.specs.Line.{double, length_in, line_in, line_of, longest, number};
ghost use Rattle.report_line.specs.Numerals.{glyph};

use answer::Answer;
use arrayvec::ArrayVec;
use itoa::Buffer;

// The longest line: six numbers of at most 20 digits, four of 16, a space or the line's end after each.
pub const LONGEST: usize = 194;

#[tactic(auto, unfolding(crate::specs::Numerals::glyph))]
fn glyph(d: u64) -> u8
    requires { d < 16 }
    ensures { result ≡ glyph d }
{
    if d < 10 {
        b'0' + d as u8
    } else {
        b'A' + (d - 10) as u8
    }
}

// Puts n in decimal, and a space.
#[tactic(auto, using(crate::proofs::Numerals::numbered))]
fn push_number(text: &mut ArrayVec<u8, LONGEST>, n: u64)
    requires { array_vec_len text.old + 21 ≤ 194 }
    ensures items { text.new.items ≡ text.old.items ++ number n }
    ensures len { array_vec_len text.new ≤ array_vec_len text.old + 21 }
{
    let mut buffer = Buffer::new();
    text.try_extend_from_slice(buffer.format(n).as_bytes())
        .unwrap();
    text.push(b' ');
}

// Puts a double's bits as 16 hex digits, and a byte after them.
// Kept: (a) `line` promises every byte of a lent slice, and `{:016X}` its text only where no writer fails.
#[tactic(auto, using(crate::proofs::Numerals::next_digit))]
fn push_double(text: &mut ArrayVec<u8, LONGEST>, x: f64, after: u8)
    requires { array_vec_len text.old + 17 ≤ 194 }
    ensures items { text.new.items ≡ text.old.items ++ double x after }
    ensures len { array_vec_len text.new ≡ array_vec_len text.old + 17 }
{
    let bits = pattern::bits_of(x);
    for i in 0..16u32 {
        text.push(glyph((bits >> (60 - 4 * i)) % 16));
    }
    text.push(after);
}

// The line of an answer.
fn text_of(a: Answer) -> ArrayVec<u8, LONGEST>
    ensures { result.items ≡ line_of a }
{
    let e = a.estimate;
    let mut text = ArrayVec::new();
    push_number(&mut text, a.number);
    push_number(&mut text, e.c);
    push_number(&mut text, e.n);
    push_number(&mut text, e.max_run_len);
    push_number(&mut text, a.k);
    push_number(&mut text, a.rounds);
    push_double(&mut text, e.p_global, b' ');
    push_double(&mut text, e.p_global_prime, b' ');
    push_double(&mut text, e.p_local, b' ');
    push_double(&mut text, e.min_entropy, b'\n');
    text
}

// Puts the line of an answer at the start of `out`, and returns its length. An `out` shorter than the longest line
// stays as it is.
#[tactic(auto, using(crate::proofs::Lines::no_length, crate::proofs::Lines::no_line, crate::proofs::Lines::whole_length, crate::proofs::Lines::whole_line))]
pub fn line(a: Answer, out: &mut [u8]) -> Option<usize>
    ensures refused { IsNone result ↔ (length out.old < longest) }
    ensures len { unwrap_or result 0 ≡ length_in a out.old }
    ensures within { IfSome result (λ n. n ≤ length out.new) }
    ensures text { out.new ≡ line_in a out.old }
{
    if out.len() < LONGEST {
        return None;
    }
    let text = text_of(a);
    out[..text.len()].copy_from_slice(text.as_slice());
    Some(text.len())
}
