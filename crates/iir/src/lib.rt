// Rows through second-order sections. The Rust's src/pulse/iir.rs.
#![tactic(auto)]

ghost use Rattle.std.specs.Prelude.{◌≡◌};
ghost use Rattle.iir.specs.Iir.{iir_fits, iir_answer, Iir};

pub mod biquad;
mod filter;
mod flight;

use biquad::a0s_judged;
use filter::filter_rows;
use quant::refusal::Answer;
use rows::{all_finite, answer, rows_fit};

// Six numbers a section: b0 b1 b2 a0 a1 a2. What is refused is refused before any sample changes.
pub fn iir(rows: usize, i: &mut [f64], q: &mut [f64], sections: &[f64]) -> Answer
    ensures { Iir rows i.old q.old sections.now result i.new q.new }
{
    let done = judged(rows, i.len(), q.len(), sections)?;
    filter_rows(i, q, sections);
    Ok(done)
}

// Sizes by 13, then a number that is not finite by 2, then an a0 that is not 1 by 22.
fn judged(rows: usize, i: usize, q: usize, sections: &[f64]) -> Answer
    ensures { result ≡ iir_answer rows i q sections.now }
{
    if !sizes_fit(rows, i, q, sections.len()) {
        return answer(false, true);
    }
    if !all_finite(sections) {
        return answer(true, false);
    }
    a0s_judged(sections)
}

fn sizes_fit(rows: usize, i: usize, q: usize, numbers: usize) -> bool
    ensures { result ≡ iir_fits rows i q numbers }
{
    rows_fit(rows, i, q) && numbers % 6 == 0 && numbers <= 96
}
