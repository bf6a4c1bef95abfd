// What the bench prints.
ghost use Rattle.std.specs.Prelude.{◌≤◌, length};

use super::say::fail;
use decimal::print::{pattern, put_double};
use fields::words::is_word;
use naming::Name;
use quant::refusal::{Answer, Refused, number};
use std::io;
use std::io::{Stderr, Stdout};
use tables::{Channel, Tables};

// What a line is answered.
#[derive(Clone, Copy)]
pub enum Reply {
    // Nothing, or not yet.
    Nothing,
    Syntax,
    Of(Answer),
    // What stands before the answer was not written.
    Lost(io::Error),
}

// Writes a line's reply.
pub(crate) fn show_reply(out: Stdout, r: Reply, line: usize) -> io::Result<()> {
    match r {
        Reply::Nothing => Ok(()),
        Reply::Syntax => show_syntax(out, line),
        Reply::Of(answer) => show_answer(out, answer),
        Reply::Lost(error) => Err(error),
    }
}

// With the reason that the system gives, of the write that failed.
pub(crate) fn lost(err: Stderr, error: io::Error) {
    fail(err, b"bench: the answers cannot be written", error);
}

fn show_answer(out: Stdout, a: Answer) -> io::Result<()> {
    match a {
        Ok(count) => println!(out; "ok {count}"),
        Err(Refused { why, place }) => println!(out; "refused {} {place}", number(why)),
    }
}

pub(crate) fn wrong_size(out: Stdout) -> io::Result<()> {
    println!(out; "refused 13 0")
}

fn show_syntax(out: Stdout, line: usize) -> io::Result<()> {
    println!(out; "syntax {line}")
}

// The reply to a line is that of the state or, where it has none, of the rows. Of a line of a sheet it is the sheet's, and `syntax` where it has none:
// fewer lines are behind it than it says, or it cannot be read itself.
pub(crate) fn reply_with(line: &[u8], first: Reply, inset: Option<Answer>, second: Reply) -> Reply {
    if is_word(line, 0, b"sheet") {
        return match inset {
            Some(answer) => Reply::Of(answer),
            None => Reply::Syntax,
        };
    }
    match first {
        Reply::Nothing => second,
        _ => first,
    }
}

fn reply_if(written: io::Result<()>) -> Reply {
    match written {
        Ok(()) => Reply::Of(Ok(0)),
        Err(error) => Reply::Lost(error),
    }
}

pub(crate) fn show_states(out: Stdout, t: Tables) -> Reply {
    reply_if(each_state(out, t))
}

// The channels in order of first adding.
fn each_state(out: Stdout, t: Tables) -> io::Result<()> {
    for c in &t.channels[..t.count.min(8)] {
        show_state(out, *c)?;
    }
    Ok(())
}

fn show_state(out: Stdout, c: Channel) -> io::Result<()> {
    let osc = c.osc;
    print!(out; "state ")?;
    show_name(out, c.name)?;
    show_double(out, osc.base.0)?;
    show_double(out, osc.delta.0)?;
    show_double(out, osc.phase.0)?;
    println!(out)
}

fn show_name(out: Stdout, n: Name) -> io::Result<()> {
    let mut bytes = [0u8; 16];
    naming::write(n, &mut bytes, 0);
    out.write_all(&bytes[..n.len.min(16)])
}

fn show_double(out: Stdout, x: f64) -> io::Result<()> {
    print!(out; " {:016x}", pattern(x))
}

pub(crate) fn show_rows(out: Stdout, rows: usize, i: &[f64], q: &[f64]) -> Reply {
    reply_if(each_row(out, rows, i, q))
}

fn each_row(out: Stdout, rows: usize, i: &[f64], q: &[f64]) -> io::Result<()> {
    show_row(out, 1, i)?;
    if rows == 2 {
        return show_row(out, 2, q);
    }
    Ok(())
}

// A row's samples, 256 at a time.
fn show_row(out: Stdout, r: usize, row: &[f64]) -> io::Result<()> {
    print!(out; "row {r}")?;
    let mut text = [b' '; 4352];
    for part in row.chunks(256) {
        fill(part, &mut text);
        out.write_all(&text[..17 * part.len()])?;
    }
    println!(out)
}

// Each sample's digits behind the blank that stands there.
fn fill(part: &[f64], out: &mut [u8])
    requires { length part.now ≤ 256 }
{
    for (k, x) in part.iter().enumerate() {
        put_double(*x, out, 17 * k + 1);
    }
}
