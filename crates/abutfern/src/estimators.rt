// The estimators.
ghost use Rattle.std.specs.Prelude.{◌≡◌};
ghost use Rattle.multi_mcw.specs.Tracks.{mcw_bits, mcw_literal, mcw_literal_output};
ghost use Rattle.multi_mmc.specs.Tracks.{mmc_bits, mmc_bits_space, mmc_literal, mmc_literal_output, mmc_literal_space};

use answer::Answer;

// MultiMCW on bits.
#[unsafe(no_mangle)]
pub extern "C" fn abutfern_multi_mcw(symbols: &[u8], bits_per_symbol: u8) -> Answer
    ensures { result ≡ mcw_bits symbols.now bits_per_symbol }
{
    multi_mcw::multi_mcw(symbols, bits_per_symbol).into()
}

// MultiMCW on symbols, translated into `out`.
#[unsafe(no_mangle)]
pub extern "C" fn abutfern_multi_mcw_literal(symbols: &[u8], out: &mut [u8]) -> Answer
    ensures { (result ≡ mcw_literal symbols.now out.old) ×
        (out.new ≡ mcw_literal_output symbols.now out.old) }
{
    multi_mcw::multi_mcw_literal(symbols, out).into()
}

// MultiMMC on bits, in lent counters.
#[unsafe(no_mangle)]
pub extern "C" fn abutfern_multi_mmc(
    symbols: &[u8],
    bits_per_symbol: u8,
    counters: &mut [u32],
) -> Answer
    ensures { (result ≡ mmc_bits symbols.now bits_per_symbol counters.old) ×
        (counters.new ≡ mmc_bits_space symbols.now bits_per_symbol counters.old) }
{
    multi_mmc::multi_mmc(symbols, bits_per_symbol, counters).into()
}

// MultiMMC on symbols, translated into `out`, in lent work space.
#[unsafe(no_mangle)]
pub extern "C" fn abutfern_multi_mmc_literal(
    symbols: &[u8],
    out: &mut [u8],
    space: &mut [u32],
) -> Answer
    ensures { (result ≡ mmc_literal symbols.now out.old space.old) ×
        (out.new ≡ mmc_literal_output symbols.now out.old space.old) ×
        (space.new ≡ mmc_literal_space symbols.now out.old space.old) }
{
    multi_mmc::multi_mmc_literal(symbols, out, space).into()
}
