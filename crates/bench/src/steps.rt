// What lines do, but for runs and samplings: to the state, to the crosstalk's factors, and to the rows, which are cleared, corrected, filtered and
// printed.
ghost use Rattle.std.specs.Prelude.{◌≤◌, length};
ghost use Rattle.bench.specs.Sheet.{Leaves, TookBy, Tells};

use super::say::part;
use super::show::{Reply, reply_with, show_rows};
use super::state::{State, after, at_most_511, second, size_fits, with_crosstalk};
use crosstalk::names::Crosstalk;
use fir::fir;
use iir::iir;
use job::line::Line;
use job_sheet::{Taken, fewer, take_sheet};
use mixer::mixer;
use numbers::numbers;
use quant::refusal::Answer;
use std::io::Stdout;

// The state after a line, and the reply; and the job goes on at `next`, behind the line and so many lines more.
#[derive(Clone, Copy)]
pub struct Told {
    pub state: State,
    pub reply: Reply,
    pub lines: usize,
    pub next: usize,
}

// The line from `at` to `end`.
pub(crate) fn tell(
    out: Stdout,
    said: Line,
    s: State,
    text: &[u8],
    at: usize,
    end: usize,
    splines: &mut [[f64; 72]],
    factors: &mut [f64],
    i: &mut [f64],
    q: &mut [f64],
) -> Told
    requires { (at ≤ end) × (end ≤ length text.now) }
    ensures { Tells said text.now end s.crosstalk factors.old result factors.new }
{
    let changed = after(out, s, said, &text[at..end], splines);
    let u = changed.state;
    let first = changed.reply;
    take_factors(said, &text[at..end], factors);
    let past = end + 1;
    let behind = past.min(text.len());
    let before = s.crosstalk;
    let c = u.crosstalk;
    let taken = sheet_behind(said, before, c, &text[behind..], factors);
    let crossed = taken.crosstalk;
    let state = with_crosstalk(u, crossed);
    let inset = taken.inset;
    let second = on_rows(out, said, state, &text[at..end], i, q);
    let reply = reply_with(part(text, at, end), first, inset, second);
    let next = past + taken.bytes;
    Told {
        state,
        reply,
        lines: taken.lines as usize,
        next,
    }
}

// The factors of a crosstalk line, as many as eight names have.
fn take_factors(said: Line, line: &[u8], factors: &mut [f64])
    ensures { Leaves said factors.old factors.new }
{
    if let Line::Crosstalk(n) = said {
        numbers(line, at_most_511(n) + 2, factors);
    }
}

// The sheet behind a line of a sheet: read, and its answer, lines and bytes told; refused, the crosstalk is that before it. Behind any other line
// none: the crosstalk is that after it.
fn sheet_behind(
    said: Line,
    before: Crosstalk,
    after: Crosstalk,
    behind: &[u8],
    factors: &mut [f64],
) -> Taken
    ensures { TookBy said behind.now before after factors.old result factors.new }
{
    match said {
        Line::Sheet(n) => take_sheet(behind, n, before, factors),
        _ => fewer(after),
    }
}

// The state is that after the line: a line of rows has set their sizes. Steps on rows and prints have a reply here.
fn on_rows(out: Stdout, said: Line, s: State, line: &[u8], i: &mut [f64], q: &mut [f64]) -> Reply {
    let n = s.length.min(i.len());
    let m = second(s).min(q.len());
    on_parts(out, said, s.rows, line, &mut i[..n], &mut q[..m])
}

fn on_parts(
    out: Stdout,
    said: Line,
    rows: usize,
    line: &[u8],
    i: &mut [f64],
    q: &mut [f64],
) -> Reply {
    match said {
        Line::Rows(n, length) => {
            if size_fits(n, length) {
                i.fill(0.0);
                q.fill(0.0);
            }
            Reply::Nothing
        }
        Line::Print => show_rows(out, rows, i, q),
        Line::Mixer => step(by_mixer, rows, line, 1, i, q),
        Line::Iir(_) => step(iir, rows, line, 2, i, q),
        Line::Fir(_) => step(fir, rows, line, 2, i, q),
        _ => Reply::Nothing,
    }
}

// A step's numbers begin at word k; one more than the longest step has is enough to be refused.
fn step<F: FnOnce(usize, &mut [f64], &mut [f64], &[f64]) -> Answer>(
    step: F,
    rows: usize,
    line: &[u8],
    k: usize,
    i: &mut [f64],
    q: &mut [f64],
) -> Reply
    requires { F.IsAlwaysCallable step }
{
    let mut given = [0.0; 257];
    let n = numbers(line, k, &mut given).min(257);
    Reply::Of(step(rows, i, q, &given[..n]))
}

// The matrix has the first four numbers, the offsets the others.
fn by_mixer(rows: usize, i: &mut [f64], q: &mut [f64], given: &[f64]) -> Answer {
    let n = given.len().min(4);
    mixer(rows, i, q, &given[..n], &given[n..])
}
