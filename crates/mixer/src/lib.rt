// The mixer's correction of two rows, in one pass: a matrix over I and Q, and then an offset for each row. The Rust's `apply_iq_inplace` and
// `apply_offset_inplace`, one after the other.
#![tactic(auto)]

ghost use Rattle.std.specs.Prelude.{◌≡◌, cond, ◌&&◌, ◌+◌, ◌<◌, true, length};
ghost use Rattle.quick_fma.specs.Quick.{roomy_of};
ghost use Rattle.mixer.specs.Mixer.{corrected_row, mixer_fits, Mixer};
ghost use Rattle.mixer.specs.Turns.{one_on, two_on};

mod line;

use line::{Line, Sample};
use quant::refusal::Answer;
use quick_fma::roomy;
use rows::{all_finite, answer, rows_fit};

// Two rows, the four numbers of a matrix, row by row, and two offsets. Refuses sizes by 13, then a number that is not finite by 2, before any sample
// changes.
pub fn mixer(rows: usize, i: &mut [f64], q: &mut [f64], matrix: &[f64], offsets: &[f64]) -> Answer
    ensures { Mixer rows i.old q.old matrix.now offsets.now result i.new q.new }
{
    if !fits(rows, i.len(), q.len(), matrix.len(), offsets.len()) {
        return answer(false, true);
    }
    if !(all_finite(matrix) && all_finite(offsets)) {
        return answer(true, false);
    }
    let first = Line::new(matrix[0], matrix[1], offsets[0]);
    let second = Line::new(matrix[2], matrix[3], offsets[1]);
    correct(i, q, first, second);
    answer(true, true)
}

// Two rows that fit, four numbers and two.
#[tactic(auto, unfolding(crate::specs::Mixer::mixer_fits))]
fn fits(rows: usize, i: usize, q: usize, matrix: usize, offsets: usize) -> bool
    ensures { result ≡ mixer_fits rows i q matrix offsets }
{
    rows_fit(rows, i, q) && rows == 2 && matrix == 4 && offsets == 2
}

// The new I by the first line, the new Q by the second; both from the samples as they came. Two samples a turn, so that the compiler can work on both at once.
fn correct(i: &mut [f64], q: &mut [f64], first: Line, second: Line)
    requires { length i.old ≡ length q.old }
    ensures first { i.new ≡ corrected_row first.m first.n first.offset i.old q.old }
    ensures second { q.new ≡ corrected_row second.m second.n second.offset i.old q.old }
{
    let fit = roomy(first.m) && roomy(second.m);
    for pair in 0..i.len() / 2 {
        two(i, q, 2 * pair, fit, first, second);
    }
    if i.len() % 2 == 1 {
        let last = i.len() - 1;
        one(i, q, last, first, second);
    }
}

// Sample k of both rows.
fn one(i: &mut [f64], q: &mut [f64], k: usize, first: Line, second: Line)
    requires { (length i.old ≡ length q.old) × (k < length i.old) }
    ensures first { i.new ≡ one_on k first.m first.n first.offset i.old q.old i.old }
    ensures second { q.new ≡ one_on k second.m second.n second.offset i.old q.old q.old }
{
    let x = i[k];
    let y = q[k];
    i[k] = first.corrected(x, y);
    q[k] = second.corrected(x, y);
}

// Samples k and k + 1 of both rows; fit says whether the first numbers of both lines leave room.
fn two(i: &mut [f64], q: &mut [f64], k: usize, fit: bool, first: Line, second: Line)
    requires { (length i.old ≡ length q.old) × (k + 1 < length i.old) × (fit ≡ (roomy_of first.m && roomy_of second.m)) }
    ensures first { i.new ≡ two_on k first.m first.n first.offset i.old q.old i.old }
    ensures second { q.new ≡ two_on k second.m second.n second.offset i.old q.old q.old }
{
    if !two_by_doubles(i, q, k, fit, first, second) {
        one(i, q, k, first, second);
        one(i, q, k + 1, first, second);
    }
}

// The same, where doubles settle all four; else the rows stay.
fn two_by_doubles(
    i: &mut [f64],
    q: &mut [f64],
    k: usize,
    fit: bool,
    first: Line,
    second: Line,
) -> bool
    requires { (length i.old ≡ length q.old) × (k + 1 < length i.old) × (fit ≡ (roomy_of first.m && roomy_of second.m)) }
    ensures first { i.new ≡ cond result (two_on k first.m first.n first.offset i.old q.old i.old) i.old }
    ensures second { q.new ≡ cond result (two_on k second.m second.n second.offset i.old q.old q.old) q.old }
{
    if !fit {
        return false;
    }
    let Some(a) = Sample::split(i[k], q[k]) else {
        return false;
    };
    let Some(b) = Sample::split(i[k + 1], q[k + 1]) else {
        return false;
    };
    let (Some((x, z)), Some((y, w))) = (first.sums(a, b), second.sums(a, b)) else {
        return false;
    };
    i[k] = x + first.offset;
    i[k + 1] = z + first.offset;
    q[k] = y + second.offset;
    q[k + 1] = w + second.offset;
    true
}
