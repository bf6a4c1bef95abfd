// What is known between two lines, but for the arrays: the tables, how many commands are gathered, and the crosstalk.
use super::line::{Call, Line};
use super::show::show_refused;
use commands::command::Arranged;
use crosstalk::names::Crosstalk;
use naming::Name;
use quant::quantity::{Amplitude, Time};
use std::io::Write;
use tables::{Tabled, Tables};

#[derive(Clone, Copy)]
pub(crate) struct State {
    pub(crate) tables: Tables,
    pub(crate) count: usize,
    pub(crate) cross: Crosstalk,
    pub(crate) factors: [f64; 64],
    pub(crate) lent: usize,
}

pub(crate) fn start() -> State {
    let tabled = tables::make(Amplitude(0.0), Time(0.0), false);
    fresh(tabled.tables)
}

fn fresh(tables: Tables) -> State {
    let none = Name {
        first: 0,
        second: 0,
        len: 0,
    };
    State {
        tables,
        count: 0,
        cross: Crosstalk {
            count: 0,
            names: [none; 8],
        },
        factors: [0.0; 64],
        lent: 0,
    }
}

// What a line does to the state, but for a call, a sampling and a command. A write that fails changes nothing of it.
pub(crate) fn after<W: Write>(
    s: State,
    said: Line,
    splines: &mut [[f64; 72]],
    out: &mut W,
) -> State {
    let t = s.tables;
    match said {
        Line::Tables(amp, time, oversize) => fresh(told(tables::make(amp, time, oversize), out)),
        Line::Channel(name, osc) => State {
            tables: told(tables::add_channel(t, name, osc), out),
            ..s
        },
        Line::Shape(name) => State {
            tables: told(tables::add_shape(t, name, splines), out),
            ..s
        },
        Line::Named(name) => with_name(s, name),
        Line::Factor(x) => with_factor(s, x),
        _ => s,
    }
}

fn told<W: Write>(t: Tabled, out: &mut W) -> Tables {
    let _ = show_refused(t.answer, out);
    t.tables
}

// A ninth name has no place and is only counted.
fn with_name(s: State, name: Name) -> State {
    let mut u = s;
    let at = s.cross.count.min(8);
    if at < 8 {
        u.cross.names[at] = name;
    }
    u.cross.count = at + 1;
    u
}

// A factor that has no place is dropped.
fn with_factor(s: State, x: f64) -> State {
    let mut u = s;
    let at = s.lent;
    if at < 64 {
        u.factors[at] = x;
        u.lent = at + 1;
    }
    u
}

// One command more. Of more than 1,024 the last takes the last place.
pub(crate) fn with_command(s: State, a: Arranged, commands: &mut [Arranged; 1024]) -> State {
    let slot = s.count.min(1023);
    commands[slot] = a;
    State {
        count: slot + 1,
        ..s
    }
}

// What a call leaves: its commands are forgotten. After `y` all is as before.
pub(crate) fn ran(s: State, call: Call, tables: Tables) -> State {
    match call {
        Call::Again => s,
        _ => State {
            tables,
            count: 0,
            ..s
        },
    }
}
