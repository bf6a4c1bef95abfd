// The lines of a text, in order: each is read, done and answered.
ghost use Rattle.std.specs.Prelude.{◌≡◌, ◌≤◌, length};
ghost use Rattle.lines.specs.Text.{lines_of};

use super::line::{Ask, Call, Line, read};
use super::show::{show, show_answer, show_row};
use super::state::{State, after, ran, start, with_command};
use commands::command::{Arranged, Command};
use owned::{Executed, execute_owned};
use owned_sampler::sample_owned;
use pulse::list::Pulse;
use quant::quantity::Time;
use quant::refusal::Answer;
use std::io;
use std::io::Write;
use words::end_of;

// Answers go to a writer, and one that cannot be written is passed over. Every line is gone through once: the count is the lines'.
pub fn walk<W: Write>(text: &[u8], out: &mut W) -> usize
    ensures { result ≡ length (lines_of text.now) }
{
    let barrier = Arranged {
        start: Time(0.0),
        span: Time(0.0),
        command: Command::Barrier,
    };
    let mut commands = [barrier; 1024];
    let mut pulses = [Pulse::default(); 8192];
    let mut bins = [[0.0; 77]; 512];
    let mut splines = [[0.0; 72]; 8];
    let mut s = start();
    let mut lines: usize = 0;
    let mut at: usize = 0;
    // Kept: bytes have no `split`, and a text parted in two at each line feed is no plainer.
    while at < text.len() {
        let end = end_of(text, at);
        lines += 1;
        match read(&text[at..end]) {
            Some(Line::Command(a)) => s = with_command(s, a, &mut commands),
            Some(Line::Call(call)) => {
                let e = called(s, call, &splines, commands, &mut bins, pulses, out);
                pulses = e.pulses;
                s = ran(s, call, e.tabled.tables);
            }
            Some(Line::Sampling(ask)) => {
                let _ = sampled(s, ask, &bins, pulses, out);
            }
            Some(said) => s = after(s, said, &mut splines, out),
            None => {
                let _ = out.write_all(b"?\n");
            }
        }
        at = end + 1;
    }
    lines
}

// A call without rows lends none for the bins.
fn called<W: Write>(
    s: State,
    call: Call,
    splines: &[[f64; 72]],
    commands: [Arranged; 1024],
    bins: &mut [[f64; 77]],
    pulses: [Pulse; 8192],
    out: &mut W,
) -> Executed {
    let n = rows_of(call, bins.len());
    let e = execute_owned(s.tables, splines, commands, s.count, &mut bins[..n], pulses);
    let _ = show(call, &e, bins, out);
    e
}

fn rows_of(call: Call, rows: usize) -> usize
    ensures { result ≤ rows }
{
    match call {
        Call::WithoutRows => 0,
        _ => rows,
    }
}

// A sampling leaves the state as it was.
fn sampled<W: Write>(
    s: State,
    ask: Ask,
    bins: &[[f64; 77]],
    pulses: [Pulse; 8192],
    out: &mut W,
) -> io::Result<()> {
    let mut i = [ask.first; 65537];
    let mut q = [ask.second; 65537];
    let mut scratch = [0.0; 65537];
    let mut work = [[0.0; 5]; 8192];
    let mut marks = [0; 8192];
    let a = on_rows(
        s,
        ask,
        bins,
        pulses,
        &mut i,
        &mut q,
        &mut scratch,
        &mut work,
        &mut marks,
    );
    show_answer(b"m", a, out)?;
    show_row(b"i", &i, ask.from, ask.i, out)?;
    show_row(b"q", &q, ask.from, ask.q, out)
}

// On the first factors, and the first samples of each row and of the scratch: as many as are given, or all.
fn on_rows(
    s: State,
    ask: Ask,
    bins: &[[f64; 77]],
    pulses: [Pulse; 8192],
    i: &mut [f64],
    q: &mut [f64],
    scratch: &mut [f64],
    work: &mut [[f64; 5]],
    marks: &mut [usize],
) -> Answer {
    let factors = s.lent.min(64);
    let a = ask.i.min(i.len());
    let b = ask.q.min(q.len());
    let d = ask.scratch.min(scratch.len());
    sample_owned(
        s.tables,
        ask.request,
        s.cross,
        &s.factors[..factors],
        bins,
        pulses,
        &mut i[..a],
        &mut q[..b],
        &mut scratch[..d],
        work,
        marks,
    )
}
