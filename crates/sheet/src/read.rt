// A sheet read: line by line, and the matrix is written after the last one.
ghost use Rattle.std.specs.Prelude.{◌≡◌, true, [], ◌+◌, ◌*◌, ◌≤◌, length, take, drop};
ghost use Rattle.sheet.specs.Sheet.{Read, nothing, complete, accepts, refuses, read_from, matrix_of, doubles};
ghost use Rattle.sheet.specs.Reader.{so_far, Fits, read_text, Parses, Answers};
ghost use Rattle.sheet.specs.Puts.{pasted};

use super::names::{blank, place};
use super::state::{State, Verdict, complete, fresh, step};
use lines::field::float_of;
use lines::text::line_end;
use naming::Name;
use quant::refusal::{Answer, Refusal};

// Done with N, or refused with the line. The first N names are the columns; the others, and all of a refused sheet, are blank.
#[derive(Clone, Copy)]
pub struct Reading {
    pub answer: Answer,
    pub names: [Name; 8],
}

// What the lines of a text say, or the refusal and its line.
#[derive(Clone, Copy)]
pub struct Parsed {
    pub verdict: Verdict,
    pub line: usize,
    pub state: State,
}

// Reads a sheet. The matrix has at least 64 numbers.
pub fn read(text: &[u8], matrix: &mut [f64]) -> Reading
    ensures { Read text.now matrix.old result matrix.new }
{
    if 4096 < text.len() {
        return refused(Refusal::WrongSize, 0);
    }
    if matrix.len() < 64 {
        return refused(Refusal::WrongSize, 0);
    }
    let parsed = lines_of(text);
    match parsed.verdict {
        Verdict::Good => {
            fill(parsed.state, matrix);
            accepted(parsed.state)
        }
        Verdict::Bad(r) => refused(r, parsed.line),
    }
}

fn accepted(s: State) -> Reading
    requires { Fits s }
    ensures { Answers result (accepts (so_far s)) }
{
    let names = s.columns;
    Reading {
        answer: Ok(s.count),
        names,
    }
}

fn refused(r: Refusal, line: usize) -> Reading
    ensures { Answers result (refuses r line) }
{
    Reading {
        answer: Err(r.at(line)),
        names: [blank(); 8],
    }
}

// The first bad line decides. A last line without its line feed is bad.
fn lines_of(text: &[u8]) -> Parsed
    ensures { Parses result (read_text 1 nothing text.now) }
{
    let mut s = fresh(0);
    let mut line: usize = 1;
    let mut at: usize = 0;
    while at < text.len() {
        let end = line_end(text, at);
        if end == text.len() {
            return stopped_at(Refusal::Layout, line);
        }
        let stepped = step(s, &text[at..end]);
        if let Verdict::Bad(r) = stepped.verdict {
            return stopped_at(r, line);
        }
        s = stepped.state;
        at = end + 1;
        line += 1;
    }
    ended(s, line)
}

// Where the lines end, the sheet has to be complete.
fn ended(s: State, line: usize) -> Parsed
    requires { Fits s }
    ensures { Parses result (read_from line (so_far s) [] []) }
{
    if complete(s) {
        return Parsed {
            verdict: Verdict::Good,
            line,
            state: s,
        };
    }
    stopped_at(Refusal::Layout, line)
}

fn stopped_at(r: Refusal, line: usize) -> Parsed
    ensures { Parses result (refuses r line) }
{
    Parsed {
        verdict: Verdict::Bad(r),
        line,
        state: fresh(0),
    }
}

// The rows go to the matrix in column order.
fn fill(s: State, matrix: &mut [f64])
    requires { Fits s × (complete (so_far s) ≡ true) × (64 ≤ length matrix.old) }
    ensures { matrix.new ≡ matrix_of (accepts (so_far s)) matrix.old }
{
    let State {
        count,
        columns,
        rows,
        factors,
        ..
    } = s;
    for c in 0..count {
        let r = place(columns[c], &rows[..count]);
        copy_row(factors, r * count, matrix, c * count, count);
    }
}

// One row: so many factors from one place to another.
fn copy_row(factors: [u64; 64], from: usize, matrix: &mut [f64], to: usize, count: usize)
    requires { (from + count ≤ 64) × (to + count ≤ length matrix.old) }
    ensures { matrix.new ≡ pasted matrix.old to (doubles (take count (drop from factors))) }
{
    for k in 0..count {
        matrix[to + k] = float_of(factors[from + k]);
    }
}
