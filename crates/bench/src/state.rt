// What the bench knows between two lines, but for the arrays: tables, the rows' sizes, how many commands are gathered, crosstalk's names.
ghost use Rattle.std.specs.Prelude.{◌≡◌, ◌≤◌, min, length};
ghost use Rattle.bench.specs.Sheet.{with_crosstalk};

use super::show::{Reply, show_states};
use commands::command::Arranged;
use crosstalk::names::Crosstalk;
use fields::value::name_in;
use job::line::Line;
use naming::Name;
use numbers::numbers;
use quant::quantity::{Amplitude, Frequency, Time};
use quant::refusal::{Answer, Refusal};
use sampler::Request;
use sheet::names::blank;
use std::io::Stdout;
use tables::{Tabled, Tables};

#[derive(Clone, Copy)]
pub struct State {
    pub tables: Tables,
    pub rows: usize,
    pub length: usize,
    pub gathered: usize,
    pub crosstalk: Crosstalk,
}

// "Fresh tables with tolerances 0 and no oversize, one row of no samples, no crosstalk."
pub(crate) fn start() -> State {
    let tabled = tables::make(Amplitude(0.0), Time(0.0), false);
    let tables = tabled.tables;
    let names = [blank(); 8];
    let crosstalk = Crosstalk { count: 0, names };
    State {
        tables,
        rows: 1,
        length: 0,
        gathered: 0,
        crosstalk,
    }
}

// The state after a line, and the reply.
#[derive(Clone, Copy)]
pub struct Changed {
    pub state: State,
    pub reply: Reply,
}

// What a line does to the state; steps on rows, runs, samplings and sheets have no reply here.
pub(crate) fn after(
    out: Stdout,
    s: State,
    said: Line,
    line: &[u8],
    splines: &mut [[f64; 72]],
) -> Changed {
    let t = s.tables;
    match said {
        Line::Syntax => with_reply(s, Reply::Syntax),
        Line::Tables(amp, time, oversize) => renewed(s, tables::make(amp, time, oversize)),
        Line::Channel(name, osc) => tabled(s, tables::add_channel(t, name, osc)),
        Line::Shape(name) => tabled(s, tables::add_shape(t, name, splines)),
        Line::Spline(name, degree, controls, knots) => {
            tabled(s, spline(t, name, degree, controls, knots, line, splines))
        }
        Line::Command(_) => with_reply(with_gathered(s, s.gathered.min(1024) + 1), Reply::Nothing),
        Line::Run => unless_too_many(s),
        Line::States => with_reply(s, show_states(out, t)),
        Line::Crosstalk(n) => with_reply(with_names(s, n, line), Reply::Of(Ok(0))),
        Line::Rows(n, length) => with_rows(s, n, length),
        _ => with_reply(s, Reply::Nothing),
    }
}

fn with_reply(state: State, reply: Reply) -> Changed {
    Changed { state, reply }
}

fn wrong_size() -> Reply {
    Reply::Of(Err(Refusal::WrongSize.at(0)))
}

// The numbers of a spline stand from word 5 on; a job has not as many bytes as 131,072 of them.
fn spline(
    t: Tables,
    name: Name,
    degree: u64,
    controls: u64,
    knots: u64,
    line: &[u8],
    splines: &mut [[f64; 72]],
) -> Tabled {
    let mut given = [0.0; 131072];
    let many = numbers(line, 5, &mut given).min(131072);
    let first = fewer(controls, many);
    let end = first + fewer(knots, many - first);
    add(t, name, degree as usize, &given[..end], first, splines)
}

// The first `controls` of the numbers are controls, the others knots.
fn add(
    t: Tables,
    name: Name,
    degree: usize,
    given: &[f64],
    controls: usize,
    splines: &mut [[f64; 72]],
) -> Tabled
    requires { controls ≤ length given.now }
{
    tables::add_spline(
        t,
        name,
        degree,
        &given[..controls],
        &given[controls..],
        splines,
    )
}

fn fewer(n: u64, most: usize) -> usize
    ensures { result ≤ most }
{
    n.min(most as u64) as usize
}

fn renewed(s: State, made: Tabled) -> Changed {
    let answer = made.answer;
    match answer {
        Ok(_) => with_reply(with_gathered(with_tables(s, made), 0), Reply::Of(answer)),
        Err(_) => with_reply(s, Reply::Of(answer)),
    }
}

fn tabled(s: State, made: Tabled) -> Changed {
    let answer = made.answer;
    with_reply(with_tables(s, made), Reply::Of(answer))
}

fn with_tables(s: State, made: Tabled) -> State {
    State {
        tables: made.tables,
        ..s
    }
}

fn with_gathered(s: State, n: usize) -> State {
    State { gathered: n, ..s }
}

// More than 1,024 commands are not run; they are forgotten as those that ran.
fn unless_too_many(s: State) -> Changed {
    if s.gathered <= 1024 {
        return with_reply(s, Reply::Nothing);
    }
    with_reply(with_gathered(s, 0), wrong_size())
}

// The names of a line; of more than 8 only the count is kept, and sampling refuses it.
fn with_names(s: State, n: u64, line: &[u8]) -> State {
    let count = at_most_511(n);
    let names = names_in(line, count.min(8));
    State {
        crosstalk: Crosstalk { count, names },
        ..s
    }
}

pub(crate) fn with_crosstalk(s: State, c: Crosstalk) -> State
    ensures { result ≡ with_crosstalk s c }
{
    State { crosstalk: c, ..s }
}

fn names_in(line: &[u8], count: usize) -> [Name; 8]
    requires { count ≤ 8 }
{
    let mut names = [blank(); 8];
    for k in 0..count {
        names[k] = name_at(line, k + 2);
    }
    names
}

fn name_at(line: &[u8], k: usize) -> Name {
    name_in(line, k, b"").unwrap_or(blank())
}

fn with_rows(s: State, n: u64, length: u64) -> Changed {
    if !size_fits(n, length) {
        return with_reply(s, wrong_size());
    }
    let state = State {
        rows: n as usize,
        length: length as usize,
        ..s
    };
    with_reply(state, Reply::Of(Ok(0)))
}

// One or two rows of at most 65,536 samples.
pub(crate) fn size_fits(n: u64, length: u64) -> bool {
    (1..=2).contains(&n) && length <= 65536
}

// How long the second row is: one row has none.
pub(crate) fn second(s: State) -> usize {
    if s.rows == 2 { s.length } else { 0 }
}

// The command that a line is, in place of what stood there; any other line leaves it.
pub(crate) fn kept(said: Line, before: Arranged) -> Arranged {
    match said {
        Line::Command(a) => a,
        _ => before,
    }
}

pub(crate) fn is_run(said: Line, gathered: usize) -> bool {
    matches!(said, Line::Run) && gathered <= 1024
}

pub(crate) fn is_sample(said: Line) -> bool {
    matches!(said, Line::Sample(_))
}

// What a run came to; its commands are forgotten.
pub(crate) fn ran(s: State, tabled: Tabled) -> State {
    with_gathered(with_tables(s, tabled), 0)
}

pub(crate) fn request(said: Line, rows: usize) -> Request {
    match said {
        Line::Sample(a) => Request {
            channel: a.channel,
            rate: a.rate,
            delay: a.delay,
            level: a.level,
            rows,
        },
        _ => Request {
            channel: blank(),
            rate: Frequency(0.0),
            delay: Time(0.0),
            level: 0,
            rows,
        },
    }
}

pub(crate) fn at_most_511(n: u64) -> usize
    ensures { result ≤ 511 }
{
    n.min(511) as usize
}
