// The envelope of every record: a 4-byte length of what follows it, a 2-byte kind, all little-endian, then the body.
#![tactic(auto)]

ghost use Rattle.std.specs.Prelude.{◌≡◌, ◌++◌, ◌+◌, ◌≤◌, ◌<◌, length};
ghost use Rattle.std.proofs.lemmas.List.Edits.{sets};
ghost use Rattle.envelope.specs.Little.{little, number_at};
ghost use Rattle.envelope.specs.Envelope.{body_start, framed, kind_bytes, length_bytes};

// The number in the `width` bytes from a place on, the lowest first.
pub fn number_at(bytes: &[u8], at: usize, width: usize) -> u64
    requires { (width ≤ 8) × (at + width ≤ length bytes.now) }
    ensures { result ≡ number_at bytes.now at width }
{
    let mut word = [0; 8];
    word[..width].copy_from_slice(&bytes[at..at + width]);
    u64::from_le_bytes(word)
}

// Puts the lowest `width` bytes of a number from a place on, the lowest first.
pub fn put_number(out: &mut [u8], at: usize, width: usize, number: u64)
    requires { at + width ≤ length out.old }
    ensures { out.new ≡ sets out.old at (little width number) }
{
    let mut rest = number;
    for byte in out[at..at + width].iter_mut() {
        *byte = (rest % 256) as u8;
        rest /= 256;
    }
}

// Puts the length of what follows it and the kind.
#[tactic(auto, unfolding(crate::specs::Little::little))]
pub fn put_head(out: &mut [u8], kind: u64, following: u64)
    requires { body_start ≤ length out.old }
    ensures { out.new ≡ sets out.old 0 (little length_bytes following ++ little kind_bytes kind) }
{
    put_number(out, 0, 4, following);
    put_number(out, 4, 2, kind);
}

// Whether a whole record of a kind stands at the start, with `following` bytes behind its length field. No length field
// makes it look past the slice.
pub fn is_framed(bytes: &[u8], kind: u64, following: u64) -> bool
    requires { kind_bytes ≤ following }
    ensures { result ≡ framed kind following bytes.now }
{
    let whole = following <= (bytes.len() as u64).saturating_sub(4);
    whole && number_at(bytes, 0, 4) == following && number_at(bytes, 4, 2) == kind
}
