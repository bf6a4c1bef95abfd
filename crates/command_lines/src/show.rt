// What a call or a sampling came to, printed.
ghost use Rattle.std.specs.Prelude.{◌≤◌};

use super::line::Call;
use decimal::print::pattern;
use owned::Executed;
use pulse::list::Pulse;
use quant::refusal::{Answer, Refused, number};
use std::io;
use std::io::Write;
use tables::Channel;

// A call's answer, and for `x` and `X` all that it leaves.
pub(crate) fn show<W: Write>(
    call: Call,
    e: &Executed,
    bins: &[[f64; 77]],
    out: &mut W,
) -> io::Result<()> {
    let t = e.tabled.tables;
    show_answer(b"x", e.tabled.answer, out)?;
    for i in 0..shown(call, t.count) {
        let c = t.channels[i];
        let from = (64 * i).min(bins.len());
        let end = (64 * i + c.bins.min(64)).min(bins.len());
        show_channel(c, out)?;
        show_bins(&bins[from..end], out)?;
        show_pulses(&e.pulses[1024 * i..1024 * i + c.pulses.min(1024)], out)?;
    }
    Ok(())
}

// How many of the channels are told.
fn shown(call: Call, count: usize) -> usize
    ensures { result ≤ 8 }
{
    match call {
        Call::Whole | Call::WithoutRows => count.min(8),
        Call::Answer | Call::Again => 0,
    }
}

// The number of an addition that is refused.
pub(crate) fn show_refused<W: Write>(a: Answer, out: &mut W) -> io::Result<()> {
    if let Err(Refused { why, .. }) = a {
        out.write_all(b"a")?;
        print_word(number(why) as u64, out)?;
        out.write_all(b"\n")?;
    }
    Ok(())
}

pub(crate) fn show_answer<W: Write>(letter: &[u8], a: Answer, out: &mut W) -> io::Result<()> {
    match a {
        Ok(count) => show_two(letter, 0, count as u64, out),
        Err(Refused { why, place }) => show_two(letter, number(why) as u64, place as u64, out),
    }
}

fn show_two<W: Write>(letter: &[u8], a: u64, b: u64, out: &mut W) -> io::Result<()> {
    out.write_all(letter)?;
    print_word(a, out)?;
    print_word(b, out)?;
    out.write_all(b"\n")
}

fn show_channel<W: Write>(c: Channel, out: &mut W) -> io::Result<()> {
    let osc = c.osc;
    out.write_all(b"c")?;
    print_float(osc.base.0, out)?;
    print_float(osc.delta.0, out)?;
    print_float(osc.phase.0, out)?;
    print_word(c.bins as u64, out)?;
    print_word(c.pulses as u64, out)?;
    out.write_all(b"\n")
}

fn show_bins<W: Write>(bins: &[[f64; 77]], out: &mut W) -> io::Result<()> {
    for row in bins {
        show_bin(row, out)?;
    }
    Ok(())
}

fn show_bin<W: Write>(row: &[f64; 77], out: &mut W) -> io::Result<()> {
    out.write_all(b"b")?;
    for x in &row[..5] {
        print_float(*x, out)?;
    }
    out.write_all(b"\n")
}

fn show_pulses<W: Write>(pulses: &[Pulse], out: &mut W) -> io::Result<()> {
    for p in pulses {
        show_pulse(p, out)?;
    }
    Ok(())
}

fn show_pulse<W: Write>(p: &Pulse, out: &mut W) -> io::Result<()> {
    out.write_all(b"r")?;
    print_word(p.bin as u64, out)?;
    print_float(p.time.0, out)?;
    print_float(p.amp.re, out)?;
    print_float(p.amp.im, out)?;
    print_float(p.drag.re, out)?;
    print_float(p.drag.im, out)?;
    out.write_all(b"\n")
}

// Up to 256 of a row's first samples, from a place on.
pub(crate) fn show_row<W: Write>(
    letter: &[u8],
    row: &[f64],
    from: usize,
    count: usize,
    out: &mut W,
) -> io::Result<()> {
    out.write_all(letter)?;
    let n = count.min(row.len());
    let from = from.min(n);
    for x in &row[from..from + (n - from).min(256)] {
        print_float(*x, out)?;
    }
    out.write_all(b"\n")
}

fn print_word<W: Write>(w: u64, out: &mut W) -> io::Result<()> {
    write!(out, " {w:016x}")
}

// A NaN's payload is not told.
fn print_float<W: Write>(x: f64, out: &mut W) -> io::Result<()> {
    print_word(pattern(x), out)
}
