// A play, and the pulse that it stores. The Rust's `execute_play`, `add_pulse` and `ListBuilder::push`.
ghost use Rattle.std.specs.Prelude.{◌≡◌, ◌+◌, ◌*◌, ◌<◌, ◌≤◌, true, ◌&&◌, ◌||◌, cond, ◌++◌, leb, ltb, length};
ghost use Rattle.tables.specs.Tables.{channel_at};
ghost use Rattle.commands.specs.Play.{grown, stores, stored_at, plateau_of, envelope_for, bin_with, spline_for, pushed, played_as, played, played_with};
ghost use Rattle.commands.specs.Step.{numbers_at};
ghost use Rattle.pulse.specs.Bin.{kind_of, place_of};

use super::command::Play;
use super::step::{Step, goes_on, stops};
use executor::osc::OscState;
use ieee::finite::is_finite;
use pulse::bin::{Bin, head_of, kind_of, place};
use pulse::envelope::{Envelope, Shape};
use pulse::list::Pulse;
use pulse::weight::{Weight, is_negligible, weigh};
use quant::quantity::{Quantity, Time};
use quant::refusal::Refusal;
use tables::{Channel, Tables, find, find_shape, with_channel};

// Refusals 5, 6, 7, 8, 3. The bins are 64 rows a channel, and each of eight names of shapes has a row of numbers.
#[tactic(auto, unfolding(crate::specs::Play::played_by))]
pub(crate) fn play(
    t: Tables,
    splines: &[[f64; 72]],
    bins: &[[f64; 77]],
    start: Time,
    span: Time,
    p: Play,
) -> Step
    requires { (length splines.now ≡ 8) × (length bins.now ≡ 512) }
    ensures { result ≡ played t splines.now bins.now start.0 span.0 p }
{
    let Some(name) = p.shape else {
        return play_as(t, splines, bins, start, span, p, Shape::Plain, 8);
    };
    let Some(k) = find_shape(t, name) else {
        return stops(t, Refusal::UnknownShape);
    };
    play_as(t, splines, bins, start, span, p, kind_at(splines, k), k)
}

// What the name at a place stands for.
fn kind_at(splines: &[[f64; 72]], k: usize) -> Shape
    requires { k < length splines.now }
    ensures { result ≡ kind_of (numbers_at splines.now k) }
{
    kind_of(splines[k])
}

// With the shape, and the place of its name.
#[tactic(auto, unfolding(crate::specs::Play::played_at))]
fn play_as(
    t: Tables,
    splines: &[[f64; 72]],
    bins: &[[f64; 77]],
    start: Time,
    span: Time,
    p: Play,
    kind: Shape,
    k: usize,
) -> Step
    requires { (length splines.now ≡ 8) × (length bins.now ≡ 512) }
    ensures { result ≡ played_as t splines.now bins.now start.0 span.0 p kind k }
{
    if plateau_of(p, span).0 < 0.0 {
        return stops(t, Refusal::NegativePlateau);
    }
    let Some(i) = find(t, p.channel) else {
        return stops(t, Refusal::UnknownChannel);
    };
    push(t, splines, bins, i, t.channels[i], start, span, p, kind, k)
}

// The pulse gets the oscillator's frequency, and the play's own phase. The channel at the place i is handed on, so that it is copied once.
#[tactic(auto, unfolding(crate::specs::Play::stored_with))]
fn push(
    t: Tables,
    splines: &[[f64; 72]],
    bins: &[[f64; 77]],
    i: usize,
    c: Channel,
    start: Time,
    span: Time,
    p: Play,
    kind: Shape,
    k: usize,
) -> Step
    requires i_bound { (i < 8) × (length splines.now ≡ 8) × (length bins.now ≡ 512) }
    requires c_value { c ≡ channel_at t i }
    ensures { result ≡ pushed t splines.now bins.now i start.0 p (bin_with c.osc kind p span.0) k }
{
    let b = bin_with(c.osc, kind, p, span);
    if !(is_finite(b.global.0) && is_finite(b.envelope.plateau.0)) {
        return stops(t, Refusal::NotFinite);
    }
    if is_negligible(p.amplitude, t.amp) {
        return goes_on(t);
    }
    let Some(w) = weigh(p.amplitude, p.phase, p.drag) else {
        return stops(t, Refusal::NotFinite);
    };
    store_at(
        t,
        splines,
        bins,
        i,
        c,
        start,
        w,
        head_of(b),
        spline_for(b.envelope.shape, k),
    )
}

// The place of the numbers that go along with a bin: those of a spline.
#[tactic(auto, unfolding(crate::specs::Play::spline_for))]
fn spline_for(shape: Shape, k: usize) -> usize
    ensures { result ≡ spline_for shape k }
{
    match shape {
        Shape::Plain | Shape::Hann => 8,
        Shape::Spline => k,
    }
}

fn store_at(
    t: Tables,
    splines: &[[f64; 72]],
    bins: &[[f64; 77]],
    i: usize,
    c: Channel,
    start: Time,
    w: Weight,
    head: [f64; 5],
    spline: usize,
) -> Step
    requires i_bound { (i < 8) × (length splines.now ≡ 8) × (length bins.now ≡ 512) }
    requires c_value { c ≡ channel_at t i }
    ensures { result ≡ stored_at t splines.now bins.now i start.0 w head spline }
{
    let many = c.bins.min(64);
    let first = 64 * i;
    let at = place_with(splines, spline, head, &bins[first..first + many]);
    let new = many <= at;
    if is_full(new, c.bins, c.pulses) {
        return stops(t, Refusal::Full);
    }
    stores(t, i, c, at, new, start, w, head, spline)
}

// Where a bin stands among some rows. Only behind a spline's head the numbers are read, so that no others are copied.
fn place_with(splines: &[[f64; 72]], spline: usize, head: [f64; 5], rows: &[[f64; 77]]) -> usize
    requires { length splines.now ≡ 8 }
    ensures { result ≡ place_of (head ++ numbers_at splines.now spline) rows.now }
{
    if head[0] == 2.0 {
        let numbers = numbers_at(splines, spline);
        return place(head, &numbers, rows);
    }
    place(head, &head[..0], rows)
}

// The numbers at a place of the shapes' rows, and zeros behind the last.
pub(crate) fn numbers_at(splines: &[[f64; 72]], k: usize) -> [f64; 72]
    requires { length splines.now ≡ 8 }
    ensures { result ≡ numbers_at splines.now k }
{
    if k < 8 { splines[k] } else { [0.0; 72] }
}

// A 65th bin, or a 1,025th pulse.
fn is_full(new: bool, bins: usize, pulses: usize) -> bool
    ensures { result ≡ ((new && leb 64 bins) || leb 1024 pulses) }
{
    (new && 64 <= bins) || 1024 <= pulses
}

fn stores(
    t: Tables,
    i: usize,
    c: Channel,
    at: usize,
    new: bool,
    start: Time,
    w: Weight,
    head: [f64; 5],
    spline: usize,
) -> Step
    requires i_bound { (i < 8) × (at ≤ 64) }
    requires c_value { c ≡ channel_at t i }
    requires bins_bound { (new ≡ true → c.bins < 64) × (c.pulses < 1024) }
    ensures { result ≡ stores t i at new start.0 w head spline }
{
    let Weight { amp, drag } = w;
    let pulse = Pulse {
        bin: at,
        time: start,
        amp,
        drag,
    };
    Step {
        stop: false,
        why: Refusal::Unfit,
        put: true,
        from: 1024 * i,
        count: c.pulses,
        pulse,
        opens: new,
        at: 64 * i + at,
        head,
        spline,
        tables: with_channel(t, i, grown(c, new)),
    }
}

// A pulse more, and a bin more where one is opened.
fn grown(c: Channel, new: bool) -> Channel
    requires { (new ≡ true → c.bins < 64) × (c.pulses < 1024) }
    ensures { result ≡ grown c new }
{
    Channel {
        bins: if new { c.bins + 1 } else { c.bins },
        pulses: c.pulses + 1,
        ..c
    }
}

fn bin_with(osc: OscState, kind: Shape, p: Play, span: Time) -> Bin
    ensures { result ≡ bin_with osc kind p span.0 }
{
    Bin {
        envelope: envelope_for(kind, p, span),
        global: osc.total_freq(),
        local: p.frequency,
    }
}

fn envelope_for(kind: Shape, p: Play, span: Time) -> Envelope
    ensures { result ≡ envelope_for kind p span.0 }
{
    Envelope::new(kind, p.width, plateau_of(p, span))
}

fn plateau_of(p: Play, span: Time) -> Time
    ensures { result.0 ≡ plateau_of p span.0 }
{
    if p.flexible {
        span.sub(p.width)
    } else {
        p.plateau
    }
}
