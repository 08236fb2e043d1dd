// Captures: the bit reader and the translators.
ghost use Rattle.std.specs.Prelude.{◌≡◌};
ghost use Rattle.alphabet.specs.Alphabet.{alphabet_of, dense, output_of, sorted};
ghost use Rattle.capture.specs.Reader.{bit_read};

use alphabet::Alphabet;
use capture::BitRead;

// Bit i of a capture.
#[unsafe(no_mangle)]
pub extern "C" fn abutfern_bit(symbols: &[u8], width: u8, i: u64) -> BitRead
    ensures { result ≡ bit_read symbols.now width i }
{
    capture::bits::bit(symbols, width, i).into()
}

// A capture's values numbered by first sight.
#[unsafe(no_mangle)]
pub extern "C" fn abutfern_dense_alphabet(symbols: &[u8], out: &mut [u8]) -> Alphabet
    ensures { (result ≡ alphabet_of symbols.now out.old) ×
        (out.new ≡ output_of dense symbols.now out.old) }
{
    dense::dense_alphabet(symbols, out).into()
}

// A capture's values numbered in rising order.
#[unsafe(no_mangle)]
pub extern "C" fn abutfern_value_sorted_alphabet(symbols: &[u8], out: &mut [u8]) -> Alphabet
    ensures { (result ≡ alphabet_of symbols.now out.old) ×
        (out.new ≡ output_of sorted symbols.now out.old) }
{
    rising::value_sorted_alphabet(symbols, out).into()
}
