// Where a pulse stands among the samples. The Rust's `AlignedIndex`.
ghost use Rattle.std.specs.Prelude.{◌≡◌, neg_ℤ};
ghost use Rattle.ieee.specs.Exp2.{exp2_of};
ghost use Rattle.quant.specs.Aligned.{aligned_of, start_of, placed_of};

use super::quantity::{Frequency, Time};
use ieee::ceil::ceil;
use ieee::cut::{Cut, cut_off};
use ieee::exp2::exp2;
use ieee::finite::is_finite;

// The sample that a pulse starts at, and how far that lies behind the aligned index, from 0 up to 1.
#[derive(Clone, Copy)]
pub struct Start {
    pub index: usize,
    pub offset: f64,
}

// Why there is no such sample. `placed_answer` says which refusal.
#[derive(Clone, Copy, Debug, PartialEq, Eq)]
pub enum Misplaced {
    // A number worked out on the way.
    NotFinite,
    // Below 0.
    Before,
    // From 2^64 on, and so past every row.
    Beyond,
}

// The aligned index of a time, in samples, a multiple of 2^level; none where a number worked out on the way is not finite. The delay is in the time already.
// `aligned_answer` says which refusal.
pub fn align(time: Time, rate: Frequency, level: i32) -> Option<f64>
    ensures { result ≡ aligned_of time.0 rate.0 level }
{
    let scaled = rate.0 * exp2_of_minus(level);
    if !is_finite(scaled) {
        return None;
    }
    let steps = time.0 * scaled;
    if !is_finite(steps) {
        return None;
    }
    let a = ceil(steps) * exp2(level);
    if !is_finite(a) {
        return None;
    }
    Some(a)
}

// Start and offset together, from one aligned index.
pub fn place(time: Time, rate: Frequency, level: i32) -> Result<Start, Misplaced>
    ensures { result ≡ placed_of (aligned_of time.0 rate.0 level) }
{
    match align(time, rate, level) {
        Some(a) => start_of(a),
        None => Err(Misplaced::NotFinite),
    }
}

fn start_of(a: f64) -> Result<Start, Misplaced>
    ensures { result ≡ start_of a }
{
    if a < 0.0 {
        return Err(Misplaced::Before);
    }
    match cut_off(a) {
        Cut::Index(index) => Ok(Start {
            index,
            offset: ceil(a) - a,
        }),
        Cut::Below => Err(Misplaced::Before),
        Cut::Above => Err(Misplaced::Beyond),
        Cut::NotANumber => Err(Misplaced::NotFinite),
    }
}

// 2^-level. The least i32 has no opposite; 2^(2^31 - 1) is infinite as 2^(2^31) is.
fn exp2_of_minus(level: i32) -> f64
    ensures { result ≡ exp2_of (neg_ℤ level) }
{
    exp2(level.saturating_neg())
}
