// The tables of a bench: tolerances, channels and shapes, by value. The Rust's `Executor`, but for its pulse lists: of these a channel
// keeps only how many bins and pulses it has.
#![tactic(auto)]

ghost use Rattle.std.specs.Prelude.{◌≡◌, length};
ghost use Rattle.tables.specs.Tables.{no_name, at_rest, empty, done, refused, made, fresh, found, shape_found, with_channel, settled, finite_osc, with_added, formed, settled_shape, with_added_shape, with_added_spline, state_of};

use executor::osc::OscState;
use ieee::finite::is_finite;
use naming::{Name, is_name, same};
use quant::quantity::{Amplitude, Frequency, Phase, Time};
use quant::refusal::{Answer, Refusal};
use quant::settings::is_tolerance;
use rows::all_finite;
use spline::check::check;
use spline::row::row_of;

#[derive(Clone, Copy)]
pub struct Channel {
    pub name: Name,
    pub osc: OscState,
    pub bins: usize,
    pub pulses: usize,
}

// `amp` and `time` are the tolerances. The first `count` channels are there, and the first `named` names are names of shapes. What each of these stands for
// lies beside the tables, in a lent row.
#[derive(Clone, Copy)]
pub struct Tables {
    pub amp: Amplitude,
    pub time: Time,
    pub oversize: bool,
    pub channels: [Channel; 8],
    pub count: usize,
    pub shapes: [Name; 8],
    pub named: usize,
}

// Refused, the tables are those that came.
#[derive(Clone, Copy)]
pub struct Tabled {
    pub answer: Answer,
    pub tables: Tables,
}

// Why there is no state to tell. `told_answer` says which case is which refusal.
#[derive(Clone, Copy, Debug, PartialEq, Eq)]
pub enum Untold {
    // The name breaks the rule.
    Malformed,
    // No channel of that name.
    Unknown,
}

// Empty tables: refusal 1 where a tolerance is unfit.
pub fn make(amp: Amplitude, time: Time, oversize: bool) -> Tabled
    ensures { result ≡ made amp.0 time.0 oversize }
{
    if is_tolerance(amp.0) && is_tolerance(time.0) {
        return done(empty(amp, time, oversize));
    }
    refused(Refusal::Unfit, empty(Amplitude(0.0), Time(0.0), false))
}

// A known name again is replaced by a channel that starts fresh.
pub fn add_channel(t: Tables, name: Name, osc: OscState) -> Tabled
    ensures { result ≡ with_added t name osc }
{
    if is_name(name) && is_finite_osc(osc) {
        return settle(t, find(t, name), fresh(name, osc));
    }
    refused(Refusal::Malformed, t)
}

// A name for Hann's shape. For each of eight names a row of 72 numbers is lent: refusal 13 where there are others, then 2, 3.
pub fn add_shape(t: Tables, name: Name, splines: &mut [[f64; 72]]) -> Tabled
    ensures { formed result splines.new ≡ with_added_shape t name splines.old }
{
    if splines.len() != 8 {
        return refused(Refusal::WrongSize, t);
    }
    if !is_name(name) {
        return refused(Refusal::Malformed, t);
    }
    settle_shape(t, find_shape(t, name), name, [0.0; 72], splines)
}

// A name for a spline: refusals 13, 2, 16, 3.
pub fn add_spline(
    t: Tables,
    name: Name,
    degree: usize,
    controls: &[f64],
    knots: &[f64],
    splines: &mut [[f64; 72]],
) -> Tabled
    ensures { formed result splines.new ≡ with_added_spline t name degree controls.now knots.now splines.old }
{
    if splines.len() != 8 {
        return refused(Refusal::WrongSize, t);
    }
    if !(is_name(name) && all_finite(controls) && all_finite(knots)) {
        return refused(Refusal::Malformed, t);
    }
    if !check(degree, controls.len(), knots) {
        return refused(Refusal::WrongSpline, t);
    }
    settle_shape(
        t,
        find_shape(t, name),
        name,
        row_of(degree, controls, knots),
        splines,
    )
}

// A channel's oscillator, or refusal 2 or 7, in this order.
pub fn state(t: Tables, name: Name) -> Result<OscState, Untold>
    ensures { result ≡ state_of t name }
{
    if !is_name(name) {
        return Err(Untold::Malformed);
    }
    match find(t, name) {
        Some(i) => Ok(t.channels[i].osc),
        None => Err(Untold::Unknown),
    }
}

// Where a channel stands.
pub fn find(t: Tables, name: Name) -> Option<usize>
    ensures { result ≡ found t name }
{
    for i in 0..8 {
        if t.count <= i {
            return None;
        }
        let c = t.channels[i];
        let known = c.name;
        if same(known, name) {
            return Some(i);
        }
    }
    None
}

// Where a shape's name stands.
pub fn find_shape(t: Tables, name: Name) -> Option<usize>
    ensures { result ≡ shape_found t name }
{
    for i in 0..8 {
        if t.named <= i {
            return None;
        }
        if same(t.shapes[i], name) {
            return Some(i);
        }
    }
    None
}

fn settle(t: Tables, at: Option<usize>, c: Channel) -> Tabled
    ensures { result ≡ settled t at c }
{
    match at {
        Some(i) => done(with_channel(t, i, c)),
        None => {
            if 8 <= t.count {
                return refused(Refusal::Full, t);
            }
            let mut u = t;
            let n = t.count;
            u.channels[n] = c;
            u.count = n + 1;
            done(u)
        }
    }
}

// The tables with another channel at a place; past the eighth, the tables as they are.
pub fn with_channel(t: Tables, i: usize, c: Channel) -> Tables
    ensures { result ≡ with_channel t i c }
{
    if 8 <= i {
        return t;
    }
    let mut u = t;
    u.channels[i] = c;
    u
}

fn settle_shape(
    t: Tables,
    at: Option<usize>,
    name: Name,
    row: [f64; 72],
    splines: &mut [[f64; 72]],
) -> Tabled
    requires { (at ≡ shape_found t name) × (length splines.old ≡ 8) }
    ensures { formed result splines.new ≡ settled_shape t at name row splines.old }
{
    match at {
        Some(i) => {
            splines[i] = row;
            done(t)
        }
        None => {
            if 8 <= t.named {
                return refused(Refusal::Full, t);
            }
            let mut u = t;
            let n = t.named;
            u.shapes[n] = name;
            u.named = n + 1;
            splines[n] = row;
            done(u)
        }
    }
}

fn done(t: Tables) -> Tabled
    ensures { result ≡ done t }
{
    Tabled {
        answer: Ok(0),
        tables: t,
    }
}

fn refused(why: Refusal, t: Tables) -> Tabled
    ensures { result ≡ refused why t }
{
    Tabled {
        answer: Err(why.at(0)),
        tables: t,
    }
}

fn empty(amp: Amplitude, time: Time, oversize: bool) -> Tables
    ensures { result ≡ empty amp.0 time.0 oversize }
{
    let channels = [fresh(no_name(), at_rest()); 8];
    let shapes = [no_name(); 8];
    Tables {
        amp,
        time,
        oversize,
        channels,
        count: 0,
        shapes,
        named: 0,
    }
}

fn fresh(name: Name, osc: OscState) -> Channel
    ensures { result ≡ fresh name osc }
{
    Channel {
        name,
        osc,
        bins: 0,
        pulses: 0,
    }
}

fn no_name() -> Name
    ensures { result ≡ no_name }
{
    Name {
        first: 0,
        second: 0,
        len: 0,
    }
}

fn at_rest() -> OscState
    ensures { result ≡ at_rest }
{
    OscState {
        base: Frequency(0.0),
        delta: Frequency(0.0),
        phase: Phase(0.0),
    }
}

fn is_finite_osc(o: OscState) -> bool
    ensures { result ≡ finite_osc o }
{
    is_finite(o.base.0) && is_finite(o.delta.0) && is_finite(o.phase.0)
}
