// What C, Rust and Python call, by the crate `host_c`: each function is one of the crates below, under a name of its own.
#![tactic(auto)]

ghost use Rattle.std.specs.Prelude.{◌≡◌, map};
ghost use Rattle.std.specs.Float.{binary64};
ghost use Rattle.executor.specs.Osc.{shifted_phase, set_phase_to, shifted_freq, set_freq_to, swapped_phases};
ghost use Rattle.fir.specs.Fir.{Fir};
ghost use Rattle.ieee.specs.Ceiling.{ceiling};
ghost use Rattle.fma.specs.Fused.{fma};
ghost use Rattle.host.specs.Coded.{Coded};
ghost use Rattle.host.specs.Places.{index_of, place_of, refused_place};
ghost use Rattle.iir.specs.Iir.{Iir};
ghost use Rattle.mix.specs.Part.{first_row, second_row};
ghost use Rattle.mix.specs.Plateau.{carried, real, imaginary};
ghost use Rattle.mixer.specs.Mixer.{Mixer};
ghost use Rattle.quant.specs.Aligned.{aligned_of, placed_of};
ghost use Rattle.quant.specs.Refusal.{Answer};
ghost use Rattle.spline.specs.Value.{value_in};
ghost use Rattle.trig.specs.Trig.{cosine_of, sine_of};

use executor::osc::{Moved, OscState, Swapped};
use quant::aligned::{Misplaced, align, place};
use quant::complex::Complex;
use quant::quantity::{Frequency, Phase, Time};
use quant::refusal::{Refusal, number};

pub fn skierralu_mul_add(a: f64, b: f64, c: f64) -> f64
    ensures { result ≡ fma binary64 a b c }
{
    quick_fma::mul_add(a, b, c)
}

pub fn skierralu_ceil(x: f64) -> f64
    ensures { result ≡ ceiling x }
{
    ieee::ceil::ceil(x)
}

pub fn skierralu_cos(x: f64) -> f64
    ensures { result ≡ cosine_of x }
{
    trig::cosine(x)
}

pub fn skierralu_sin(x: f64) -> f64
    ensures { result ≡ sine_of x }
{
    trig::sine(x)
}

// An aligned index: the code is 0, or 8.
#[repr(C)]
#[derive(Clone, Copy)]
pub struct Index {
    pub code: usize,
    pub index: f64,
}

// A start and an offset: the code is 0, or 8, 9 or 10.
#[repr(C)]
#[derive(Clone, Copy)]
pub struct Place {
    pub code: usize,
    pub start: usize,
    pub offset: f64,
}

pub fn skierralu_align(time: Time, rate: Frequency, level: i32) -> Index
    ensures { result ≡ index_of (aligned_of time.0 rate.0 level) }
{
    match align(time, rate, level) {
        Some(a) => Index { code: 0, index: a },
        None => Index {
            code: number(Refusal::NotFinite),
            index: 0.0,
        },
    }
}

pub fn skierralu_place(time: Time, rate: Frequency, level: i32) -> Place
    ensures { result ≡ place_of (placed_of (aligned_of time.0 rate.0 level)) }
{
    match place(time, rate, level) {
        Ok(start) => Place {
            code: 0,
            start: start.index,
            offset: start.offset,
        },
        Err(Misplaced::NotFinite) => nowhere(Refusal::NotFinite),
        Err(Misplaced::Before) => nowhere(Refusal::BeforeRow),
        Err(Misplaced::Beyond) => nowhere(Refusal::StartPastRow),
    }
}

fn nowhere(r: Refusal) -> Place
    ensures { result ≡ refused_place r }
{
    Place {
        code: number(r),
        start: 0,
        offset: 0.0,
    }
}

pub fn skierralu_shift_phase(osc: OscState, by: Phase) -> Moved
    ensures { result ≡ shifted_phase osc by.0 }
{
    osc.shift_phase(by)
}

pub fn skierralu_set_phase(osc: OscState, to: Phase, time: Time) -> Moved
    ensures { result ≡ set_phase_to osc to.0 time.0 }
{
    osc.set_phase(to, time)
}

pub fn skierralu_shift_freq(osc: OscState, by: Frequency, time: Time) -> Moved
    ensures { result ≡ shifted_freq osc by.0 time.0 }
{
    osc.shift_freq(by, time)
}

pub fn skierralu_set_freq(osc: OscState, to: Frequency, time: Time) -> Moved
    ensures { result ≡ set_freq_to osc to.0 time.0 }
{
    osc.set_freq(to, time)
}

pub fn skierralu_swap_phase(one: OscState, two: OscState, time: Time) -> Swapped
    ensures { result ≡ swapped_phases one two time.0 }
{
    executor::osc::swap_phase(one, two, time)
}

// The steps on rows answer 0, or the number of their refusal.
pub fn skierralu_mixer(
    rows: usize,
    i: &mut [f64],
    q: &mut [f64],
    matrix: &[f64],
    offsets: &[f64],
) -> usize
    ensures { Coded (λ (r : Answer). Mixer rows i.old q.old matrix.now offsets.now r i.new q.new) result }
{
    let r = mixer::mixer(rows, i, q, matrix, offsets);
    quant::refusal::code(r)
}

pub fn skierralu_iir(rows: usize, i: &mut [f64], q: &mut [f64], sections: &[f64]) -> usize
    ensures { Coded (λ (r : Answer). Iir rows i.old q.old sections.now r i.new q.new) result }
{
    let r = iir::iir(rows, i, q, sections);
    quant::refusal::code(r)
}

pub fn skierralu_fir(rows: usize, i: &mut [f64], q: &mut [f64], taps: &[f64]) -> usize
    ensures { Coded (λ (r : Answer). Fir rows i.old q.old taps.now r i.new q.new) result }
{
    let r = fir::fir(rows, i, q, taps);
    quant::refusal::code(r)
}

// A plateau: the carrier and the rotation as two numbers each.
pub fn skierralu_add_plateau(
    rows: usize,
    i: &mut [f64],
    q: &mut [f64],
    start: usize,
    count: usize,
    re: f64,
    im: f64,
    cos: f64,
    sin: f64,
)
    ensures i_after { i.new ≡ first_row rows start count i.old q.old (carried real (record { re = re; im = im }) (record { re = cos; im = sin })) }
    ensures q_after { q.new ≡ second_row rows start count i.old q.old (carried imaginary (record { re = re; im = im }) (record { re = cos; im = sin })) }
{
    let carrier = Complex { re, im };
    let rotation = Complex { re: cos, im: sin };
    mix::add_plateau(rows, i, q, start, count, carrier, rotation);
}

// A spline's value at each point, in its place. The row has 72 numbers: degree, count of controls, 32 controls, 38 knots.
pub fn skierralu_spline(points: &mut [f64], row: &[f64])
    ensures { points.new ≡ map (value_in row.now) points.old }
{
    spline::over::over(points, row);
}
