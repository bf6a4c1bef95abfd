// One line answered.
use decimal::print::pattern;
use executor::osc::{Moved, OscState, Swapped, swap_phase};
use ieee::ceil::ceil;
use points::lay;
use quant::aligned::{Misplaced, Start, place};
use quant::quantity::{Frequency, Phase, Time};
use quant::refusal::{Refusal, number};
use quick_fma::mul_add;
use std::io;
use words::{float, level, readable, word};

pub(crate) fn answer(rt: &impl Print, line: &[u8]) -> io::Result<()> {
    let Some(&letter) = line.first() else {
        return print!(rt; "?");
    };
    if !readable(line, words_of(letter)) {
        return print!(rt; "?");
    }
    rt.write_all(&[letter])?;
    match letter {
        b'm' => print_float(rt, mul_add(float(line, 0), float(line, 1), float(line, 2))),
        b'u' => print_float(rt, ceil(float(line, 0))),
        b'r' => print_float(rt, trig::reduce(float(line, 0))),
        b'l' => print_float(rt, laid(line)),
        b'c' => print_between(rt, line, trig::cosine(float(line, 0))),
        b's' => print_between(rt, line, trig::sine(float(line, 0))),
        b'a' => print_placed(rt, placed(line)),
        b'w' => print_swapped(rt, swapped(line)),
        _ => print_moved(rt, moved(letter, line)),
    }
}

// Of a letter that is none of these, more words than a line can have.
fn words_of(letter: u8) -> u8 {
    match letter {
        b'u' | b'r' => 1,
        b'm' | b'l' | b'c' | b's' | b'a' => 3,
        b'p' | b'P' | b'f' | b'F' => 5,
        b'w' => 7,
        _ => 255,
    }
}

// Point I of 64 that are laid at once; a NaN where there is none.
fn laid(line: &[u8]) -> f64 {
    let mut part = [0.0; 64];
    lay(&mut part, float(line, 0), float(line, 1));
    let i = word(line, 2) as usize;
    part.get(i).copied().unwrap_or(f64::NAN)
}

fn placed(line: &[u8]) -> Result<Start, Misplaced> {
    place(
        Time(float(line, 0)),
        Frequency(float(line, 1)),
        level(line, 2, 20),
    )
}

fn moved(letter: u8, line: &[u8]) -> Moved {
    let osc = osc_at(line, 0, 1, 2);
    let number = float(line, 3);
    let time = Time(float(line, 4));
    match letter {
        b'p' => osc.shift_phase(Phase(number)),
        b'P' => osc.set_phase(Phase(number), time),
        b'f' => osc.shift_freq(Frequency(number), time),
        _ => osc.set_freq(Frequency(number), time),
    }
}

fn swapped(line: &[u8]) -> Swapped {
    swap_phase(
        osc_at(line, 0, 1, 2),
        osc_at(line, 3, 4, 5),
        Time(float(line, 6)),
    )
}

fn osc_at(line: &[u8], a: u8, b: u8, c: u8) -> OscState {
    OscState {
        base: Frequency(float(line, a)),
        delta: Frequency(float(line, b)),
        phase: Phase(float(line, c)),
    }
}

fn print_between(rt: &impl Print, line: &[u8], x: f64) -> io::Result<()> {
    let between = float(line, 1) <= x && x <= float(line, 2);
    print_word(rt, u64::from(between))
}

fn print_placed(rt: &impl Print, p: Result<Start, Misplaced>) -> io::Result<()> {
    match p {
        Ok(Start { index, offset }) => print_place(rt, 0, index as u64, offset),
        Err(Misplaced::NotFinite) => print_nowhere(rt, Refusal::NotFinite),
        Err(Misplaced::Before) => print_nowhere(rt, Refusal::BeforeRow),
        Err(Misplaced::Beyond) => print_nowhere(rt, Refusal::StartPastRow),
    }
}

fn print_nowhere(rt: &impl Print, why: Refusal) -> io::Result<()> {
    print_place(rt, number(why) as u64, 0, 0.0)
}

fn print_place(rt: &impl Print, code: u64, start: u64, offset: f64) -> io::Result<()> {
    print_word(rt, code)?;
    print_word(rt, start)?;
    print_float(rt, offset)
}

fn print_moved(rt: &impl Print, m: Moved) -> io::Result<()> {
    print_code(rt, m.refused)?;
    print_osc(rt, m.osc)
}

fn print_swapped(rt: &impl Print, m: Swapped) -> io::Result<()> {
    print_code(rt, m.refused)?;
    print_osc(rt, m.one)?;
    print_osc(rt, m.two)
}

fn print_code(rt: &impl Print, refused: bool) -> io::Result<()> {
    let code = if refused {
        number(Refusal::NotFinite)
    } else {
        0
    };
    print_word(rt, code as u64)
}

fn print_osc(rt: &impl Print, o: OscState) -> io::Result<()> {
    print_float(rt, o.base.0)?;
    print_float(rt, o.delta.0)?;
    print_float(rt, o.phase.0)
}

fn print_float(rt: &impl Print, x: f64) -> io::Result<()> {
    print_word(rt, pattern(x))
}

fn print_word(rt: &impl Print, w: u64) -> io::Result<()> {
    print!(rt; " {w:016x}")
}
