// Reads splines and points on standard input and prints their values. Stored beside it are some of each, and what the recurrence of request P1
// answers in the doubles of another language: `tools/splines` prints both anew. A line is a letter and words, each 16 lowercase hex digits after one
// space: the bits of a double, or a whole number.
//
//     s DEGREE CONTROLS KNOTS N..     0, or 16 where these are no spline: CONTROLS and KNOTS count the numbers
//     x X                             CODE VALUE: 0 and the value at X, or 8 and 0 where a step is not finite
//     w X..                           the values at up to 64 points, worked out one after another
//
// Points are those of the last spline before them; where there is none, values are 0.
// Printed: the letter and the answer's words. A NaN is printed as 7ff8000000000000, a line that cannot be read as `?`.
#![tactic(auto)]

ghost use Rattle.std.specs.Prelude.{◌≡◌, ◌≤◌, ℕ, Some};

use decimal::print::pattern;
use quant::refusal::{Refusal, number};
use spline::check::check;
use spline::over::over;
use spline::row::row_of;
use spline::value::{is_fine, value};
use std::io;
use words::{end_of, float, readable, word};

fn main(rt: HostRuntime) -> io::Result<()> {
    let mut text = lines::text::room();
    let n = input::read_full(&mut rt.stdin(), &mut text)?;
    if n == text.len() {
        return println!(rt; "input too long");
    }
    each(&rt, &text[..n])
}

fn each(rt: &impl Print, text: &[u8]) -> io::Result<()> {
    let mut kept = [0.0; 72];
    // Kept: bytes have no `split`, and a text parted in two at each line feed is no plainer.
    let mut at: usize = 0;
    while at < text.len() {
        let end = end_of(text, at);
        answer(rt, &text[at..end], &mut kept)?;
        println!(rt)?;
        at = end + 1;
    }
    Ok(())
}

// Kept is the row of the last spline, or of none.
fn answer(rt: &impl Print, line: &[u8], kept: &mut [f64; 72]) -> io::Result<()> {
    let many = words_in(line);
    let Some(letter) = line.first() else {
        return print_none(rt);
    };
    if !readable(line, many) {
        return print_none(rt);
    }
    match *letter {
        b's' => tell(rt, line, many, kept),
        b'x' => print_point(rt, line, many, kept),
        b'w' => print_walk(rt, line, many, kept),
        _ => print_none(rt),
    }
}

fn print_none(rt: &impl Print) -> io::Result<()> {
    print!(rt; "?")
}

// How many words a line has if it can be read.
fn words_in(line: &[u8]) -> u8 {
    (line.len() / 17).min(128) as u8
}

fn tell(rt: &impl Print, line: &[u8], many: u8, kept: &mut [f64; 72]) -> io::Result<()> {
    let Some(left) = numbers_in(line, many) else {
        return print_none(rt);
    };
    let given = numbers_from(line, 3);
    keep(
        rt,
        word(line, 0) as usize,
        word(line, 1) as usize,
        &given[..left as usize],
        kept,
    )
}

// How many controls and knots stand on a line; none where these are not as many as it says.
fn numbers_in(line: &[u8], many: u8) -> Option<u8>
    ensures { (n : ℕ) → result ≡ Some n → n ≤ 128 }
{
    let left = many.checked_sub(3)?;
    let knots = u64::from(left).checked_sub(word(line, 1))?;
    if left <= 128 && knots == word(line, 2) {
        Some(left)
    } else {
        None
    }
}

fn keep(
    rt: &impl Print,
    degree: usize,
    controls: usize,
    given: &[f64],
    kept: &mut [f64; 72],
) -> io::Result<()> {
    print!(rt; "s")?;
    if controls <= given.len() {
        let knots = &given[controls..];
        if check(degree, controls, knots) {
            *kept = row_of(degree, &given[..controls], knots);
            return print_word(rt, 0);
        }
    }
    print_word(rt, number(Refusal::WrongSpline) as u64)
}

// The words from word k on; 0 from where the line ends.
fn numbers_from(line: &[u8], k: u8) -> [f64; 128]
    requires { k ≤ 3 }
{
    std::array::from_fn(|i| float(line, k + i as u8))
}

fn print_point(rt: &impl Print, line: &[u8], many: u8, row: &[f64]) -> io::Result<()> {
    if many != 1 {
        return print_none(rt);
    }
    let x = float(line, 0);
    print!(rt; "x")?;
    if is_fine(row, x) {
        print_word(rt, 0)?;
        return print_word(rt, pattern(value(row, x)));
    }
    print_word(rt, number(Refusal::NotFinite) as u64)?;
    print_word(rt, 0)
}

fn print_walk(rt: &impl Print, line: &[u8], many: u8, row: &[f64]) -> io::Result<()> {
    if 64 < many {
        return print_none(rt);
    }
    let mut part = numbers_from(line, 0);
    walk(rt, &mut part[..many as usize], row)
}

fn walk(rt: &impl Print, part: &mut [f64], row: &[f64]) -> io::Result<()> {
    over(part, row);
    print!(rt; "w")?;
    print_all(rt, part)
}

fn print_all(rt: &impl Print, part: &[f64]) -> io::Result<()> {
    for x in part {
        print_word(rt, pattern(*x))?;
    }
    Ok(())
}

fn print_word(rt: &impl Print, w: u64) -> io::Result<()> {
    print!(rt; " {w:016x}")
}
