// The shared estimate and the board figure.
ghost use Rattle.std.specs.Prelude.{◌≡◌};
ghost use Rattle.board.specs.Board.{figure_of};
ghost use Rattle.bisect.specs.Bisection.{local_of};
ghost use Rattle.prediction.specs.Estimate.{estimate_of};
ghost use Rattle.function.specs.Function.{function_of};

use answer::{Answer, Solved, Value};
use board::Figure;

// The value at p of the function whose root p_local is.
#[unsafe(no_mangle)]
pub extern "C" fn abutfern_prediction_estimate_function(p: f64, max_run_len: u64, n: u64) -> Value
    ensures { result ≡ function_of p max_run_len n }
{
    function::prediction_estimate_function(p, max_run_len, n).into()
}

// p_local over ldomain..1, by bisection.
#[unsafe(no_mangle)]
pub extern "C" fn abutfern_calc_p_local(max_run_len: u64, n: u64, ldomain: f64) -> Solved
    ensures { result ≡ local_of max_run_len n ldomain }
{
    bisect::calc_p_local(max_run_len, n, ldomain).into()
}

// The estimate of C correct of N predictions with a longest run, over an alphabet of k symbols.
#[unsafe(no_mangle)]
pub extern "C" fn abutfern_prediction_estimate(c: u64, n: u64, max_run_len: u64, k: u64) -> Answer
    ensures { result ≡ estimate_of c n max_run_len k }
{
    prediction::estimate::prediction_estimate(c, n, max_run_len, k).into()
}

// The board figure of the four answers.
#[unsafe(no_mangle)]
pub extern "C" fn abutfern_board_figure(
    mcw_bits: Answer,
    mcw_literal: Answer,
    mmc_bits: Answer,
    mmc_literal: Answer,
    bits_per_symbol: u8,
) -> Figure
    ensures { result ≡ figure_of mcw_bits mcw_literal mmc_bits mmc_literal bits_per_symbol }
{
    board::board_figure(
        mcw_bits,
        mcw_literal,
        mmc_bits,
        mmc_literal,
        bits_per_symbol,
    )
    .into()
}
