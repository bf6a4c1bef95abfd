// What the steps on rows share: the sizes that rows may have, and the test that numbers are finite.
#![tactic(auto)]

ghost use Rattle.std.specs.Prelude.{◌≡◌};
ghost use Rattle.rows.specs.Rows.{rows_fit, all_finite, answer_of};

use ieee::finite::is_finite;
use quant::refusal::{Answer, Refusal};

// One row, and then the second has no samples, or two rows of equal length; at most 65,536 samples.
pub fn rows_fit(rows: usize, i: usize, q: usize) -> bool
    ensures { result ≡ rows_fit rows i q }
{
    i <= 65536
        && match rows {
            1 => q == 0,
            2 => i == q,
            _ => false,
        }
}

pub fn all_finite(numbers: &[f64]) -> bool
    ensures { result ≡ all_finite numbers.now }
{
    numbers.iter().all(|x| is_finite(*x))
}

// What a step answers: 13 where a size is wrong, then 2 where a number is not finite.
pub fn answer(fits: bool, fine: bool) -> Answer
    ensures { result ≡ answer_of fits fine }
{
    if !fits {
        Err(Refusal::WrongSize.at(0))
    } else if !fine {
        Err(Refusal::Malformed.at(0))
    } else {
        Ok(0)
    }
}
