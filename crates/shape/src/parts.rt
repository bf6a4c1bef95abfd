// Where the parts of an envelope begin and end among the samples. The Rust's `get_envelope_cached`, without its points.
ghost use Rattle.std.specs.Prelude.{◌≡◌};
ghost use Rattle.shape.specs.Parts.{index_at, broken, ordered, parted_of};

use ieee::ceil::ceil;
use ieee::cut::{Cut, cut_off};
use quant::quantity::{Frequency, Time};
use quant::refusal::Refusal;
use quick_fma::mul_add;
use std::num::nearest_u64_to_f64;

// The head, points from x0 on, lies below `start`; ones lie from there below `end`; the tail, points from x2 on, from there below `length`.
// Points are dx apart. Without a plateau all points are of the head.
#[derive(Clone, Copy)]
pub struct Parts {
    pub x0: f64,
    pub dx: f64,
    pub x2: f64,
    pub start: usize,
    pub end: usize,
    pub length: usize,
}

// The parts of the envelope of a pulse that starts `offset` samples behind its aligned index, in a row that has room for `room` samples more.
#[tactic(auto, unfolding(crate::specs::Parts::parted_of))]
pub fn lay_out(
    width: Time,
    plateau: Time,
    offset: f64,
    rate: Frequency,
    dt: Time,
    room: usize,
) -> Result<Parts, Refusal>
    ensures { result ≡ parted_of width.0 plateau.0 offset rate.0 dt.0 room }
{
    let late = offset * dt.0;
    let t1 = width.0 / 2.0 - late;
    if t1 < 0.0 {
        return Err(Refusal::ShapeTooShort);
    }
    let length = index(width.0 + plateau.0 - late, rate.0);
    if room < length {
        return Err(Refusal::EndPastRow);
    }
    if plateau.0 == 0.0 {
        let x0 = -t1 / width.0;
        return Ok(Parts {
            x0,
            dx: dt.0 / width.0,
            x2: x0,
            start: length,
            end: length,
            length,
        });
    }
    three_parts(width.0, plateau.0, offset, rate.0, dt.0, length)
}

// How many samples begin in a time: ceil(t*rate).
pub fn samples(t: Time, rate: Frequency) -> usize
    ensures { result ≡ index_at t.0 rate.0 }
{
    index(t.0, rate.0)
}

// With a plateau, where t1 is not below 0 and the length is known.
fn three_parts(
    width: f64,
    plateau: f64,
    offset: f64,
    rate: f64,
    dt: f64,
    length: usize,
) -> Result<Parts, Refusal>
    ensures { result ≡ ordered (broken width plateau offset rate dt length) }
{
    let late = offset * dt;
    let half = width / 2.0;
    let t1 = half - late;
    let t2 = half + plateau - late;
    let start = index(t1, rate);
    let end = index(t2, rate);
    if end < start || length < end {
        return Err(Refusal::EndPastRow);
    }
    Ok(Parts {
        x0: -t1 / width,
        dx: dt / width,
        x2: mul_add(nearest_u64_to_f64(end as u64), dt, -t2) / width,
        start,
        end,
        length,
    })
}

// The ceiling of a time in samples, as an index. The Rust's `time_to_index`, whose cast stops at the ends of the indices; from 2^64 - 1 on it
// is past every row.
fn index(t: f64, rate: f64) -> usize
    ensures { result ≡ index_at t rate }
{
    match cut_off(ceil(t * rate)) {
        Cut::Index(n) => n,
        Cut::Below | Cut::NotANumber => 0,
        Cut::Above => usize::MAX,
    }
}
