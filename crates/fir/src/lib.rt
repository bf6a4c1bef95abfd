// Rows filtered by taps: the Rust's `pulse/fir.rs` at one lane.
#![tactic(auto)]

ghost use Rattle.std.specs.Prelude.{◌≡◌};
ghost use Rattle.fir.specs.Fir.{Fir, fir_fits};

use quant::refusal::Answer;
use ring::filter;
use rows::{all_finite, answer, rows_fit};

// Refuses sizes by 13, then a tap that is not finite by 2, before any sample changes.
pub fn fir(rows: usize, i: &mut [f64], q: &mut [f64], taps: &[f64]) -> Answer
    ensures { Fir rows i.old q.old taps.now result i.new q.new }
{
    if !fits(rows, i.len(), q.len(), taps.len()) {
        return answer(false, true);
    }
    if !all_finite(taps) {
        return answer(true, false);
    }
    filter(i, taps);
    filter(q, taps);
    answer(true, true)
}

// Rows that fit, and 1 to 256 taps.
fn fits(rows: usize, i: usize, q: usize, taps: usize) -> bool
    ensures { result ≡ fir_fits rows i q taps }
{
    rows_fit(rows, i, q) && (1..=256).contains(&taps)
}
