// Little-endian numbers at the start of a slice, which is then what follows them. None where too few bytes are left.
ghost use Rattle.std.specs.Prelude.{◌≡◌, IfSome, take};
ghost use Rattle.std.specs.Int.{from_le_bytes, w32, w64};

fn array<const N: usize>(bytes: &mut &[u8]) -> Option<[u8; N]>
    ensures { IfSome result (λ first. first ≡ take N bytes.old.now) }
{
    let (first, rest) = bytes.split_first_chunk()?;
    *bytes = rest;
    Some(*first)
}

pub fn byte(bytes: &mut &[u8]) -> Option<u8> {
    bytes.split_off_first().copied()
}

pub fn four(bytes: &mut &[u8]) -> Option<u32>
    ensures { IfSome result (λ n. n ≡ from_le_bytes w32 (take 4 bytes.old.now)) }
{
    Some(u32::from_le_bytes(array(bytes)?))
}

pub fn word(bytes: &mut &[u8]) -> Option<u64>
    ensures { IfSome result (λ n. n ≡ from_le_bytes w64 (take 8 bytes.old.now)) }
{
    Some(u64::from_le_bytes(array(bytes)?))
}

// The double of a word.
pub fn double(bytes: &mut &[u8]) -> Option<f64> {
    Some(pattern::double_of(word(bytes)?))
}
