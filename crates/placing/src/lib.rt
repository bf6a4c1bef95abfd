// One pulse of a sampling call: where it goes and with what carrier, or its refusal, before any sample changes. The Rust's `sample_pulse_list`.
#![tactic(auto)]

ghost use Rattle.std.specs.Prelude.{◌≡◌};
ghost use Rattle.rows.specs.Rows.{all_finite};
ghost use Rattle.placing.specs.Judged.{weight_numbers, judged, started_at, plain_at, curved_at, measured_at, shaped_at};

mod phases;

use phases::turn;
use pulse::bin::Bin;
use pulse::envelope::Envelope;
use pulse::list::Pulse;
use quant::aligned::{Misplaced, place};
use quant::complex::Complex;
use quant::quantity::Quantity;
use quant::refusal::Refusal;
use quant::settings::Settings;
use rows::all_finite;
use shape::envelope::measure;
use shape::parts::samples;

// A pulse without a shape: `count` samples from `start` on. The carrier starts at phaser*amp.
#[derive(Clone, Copy)]
pub struct Flat {
    pub start: usize,
    pub count: usize,
    pub carrier: Complex,
    pub rotation: Complex,
}

// A pulse with a shape: its envelope, `offset` samples behind the aligned index, has `points` points. The drag is multiplied by the rate.
#[derive(Clone, Copy)]
pub struct Curved {
    pub start: usize,
    pub offset: f64,
    pub points: usize,
    pub amp: Complex,
    pub drag: Complex,
    pub carrier: Complex,
    pub rotation: Complex,
}

#[derive(Clone, Copy)]
pub enum Judged {
    Plateau(Flat),
    Shaped(Curved),
}

// `judged_answer` says what it answers. A pulse of bin b, with the numbers of its spline beside it, in a row of `len` samples.
#[tactic(auto, unfolding(crate::specs::Judged::judged))]
pub fn judge(s: Settings, b: Bin, numbers: &[f64], p: Pulse, len: usize) -> Result<Judged, Refusal>
    ensures { result ≡ judged s b numbers.now p len }
{
    match place(p.time.add(s.delay), s.rate, s.level) {
        Ok(start) => from_start(s, b, numbers, p, start.index, start.offset, len),
        Err(Misplaced::NotFinite) => Err(Refusal::NotFinite),
        Err(Misplaced::Before) => Err(Refusal::BeforeRow),
        Err(Misplaced::Beyond) => Err(Refusal::StartPastRow),
    }
}

fn from_start(
    s: Settings,
    b: Bin,
    numbers: &[f64],
    p: Pulse,
    start: usize,
    offset: f64,
    len: usize,
) -> Result<Judged, Refusal>
    ensures { result ≡ started_at s b numbers.now p len start offset }
{
    if len <= start {
        return Err(Refusal::StartPastRow);
    }
    if b.envelope.shape.is_shaped() {
        return shaped(s, b, numbers, p, start, offset, len - start);
    }
    plain(s, b, p, start, offset, len - start)
}

// Without a shape, where the row has room for `room` samples from the start on.
fn plain(
    s: Settings,
    b: Bin,
    p: Pulse,
    start: usize,
    offset: f64,
    room: usize,
) -> Result<Judged, Refusal>
    ensures { result ≡ plain_at s b p start offset room }
{
    let count = samples(b.envelope.plateau, s.rate);
    if room < count {
        return Err(Refusal::EndPastRow);
    }
    if !is_finite_weight(p) {
        return Err(Refusal::NotFinite);
    }
    let phases = turn(s, b, start, offset).ok_or(Refusal::NotFinite)?;
    Ok(Judged::Plateau(Flat {
        start,
        count,
        carrier: phases.start.mul(p.amp),
        rotation: phases.step,
    }))
}

// With a shape: Hann or a spline.
fn shaped(
    s: Settings,
    b: Bin,
    numbers: &[f64],
    p: Pulse,
    start: usize,
    offset: f64,
    room: usize,
) -> Result<Judged, Refusal>
    ensures { result ≡ shaped_at s b p start offset (measured_at s b numbers.now offset room) }
{
    let Envelope {
        shape,
        width,
        plateau,
    } = b.envelope;
    let points = measure(shape, numbers, width, plateau, offset, s.rate, s.dt, room)?;
    with_points(s, b, p, start, offset, points)
}

fn with_points(
    s: Settings,
    b: Bin,
    p: Pulse,
    start: usize,
    offset: f64,
    points: usize,
) -> Result<Judged, Refusal>
    ensures { result ≡ curved_at s b p start offset points }
{
    let drag = p.drag.scale(s.rate.0);
    if !(is_finite_weight(p) && all_finite(&[drag.re, drag.im])) {
        return Err(Refusal::NotFinite);
    }
    let phases = turn(s, b, start, offset).ok_or(Refusal::NotFinite)?;
    Ok(Judged::Shaped(Curved {
        start,
        offset,
        points,
        amp: p.amp,
        drag,
        carrier: phases.start,
        rotation: phases.step,
    }))
}

// The amplitude and the drag.
fn is_finite_weight(p: Pulse) -> bool
    ensures { result ≡ all_finite (weight_numbers p) }
{
    all_finite(&[p.amp.re, p.amp.im, p.drag.re, p.drag.im])
}
