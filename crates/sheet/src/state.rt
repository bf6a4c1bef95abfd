// What the lines of a sheet have said so far, and one line more.
ghost use Rattle.std.specs.Prelude.{Some, ◌≡◌, ◌*◌, ◌<◌, ◌≤◌};
ghost use Rattle.sheet.specs.Sheet.{channels_key, column_key, row_key, factor_key, behind, count_step, column_named, column_step, row_named, row_step, factor_bits, factor_step, step, complete, stops, goes};
ghost use Rattle.sheet.specs.Reader.{so_far, Begins, Fits, Steps};

use super::line::starts;
use super::names::{blank, stands_in};
use ieee::finite::is_finite;
use lines::field::float_of;
use naming::{Name, from_bytes};
use quant::refusal::Refusal;

// A count of 0: the first line is still to come. `column`, `row` and `factor` are how many of each are read; a column not read is blank.
#[derive(Clone, Copy)]
pub struct State {
    pub count: usize,
    pub columns: [Name; 8],
    pub column: usize,
    pub rows: [Name; 8],
    pub row: usize,
    pub factors: [u64; 64],
    pub factor: usize,
}

#[derive(Clone, Copy)]
pub enum Verdict {
    Good,
    Bad(Refusal),
}

// The verdict on a line, and the state with it where it is good.
#[derive(Clone, Copy)]
pub struct Stepped {
    pub verdict: Verdict,
    pub state: State,
}

// The state after a line that says the count.
pub(crate) fn fresh(count: usize) -> State
    requires { count ≤ 8 }
    ensures { Begins result count }
{
    State {
        count,
        columns: [blank(); 8],
        column: 0,
        rows: [blank(); 8],
        row: 0,
        factors: [0; 64],
        factor: 0,
    }
}

// The order of the lines: the count, the columns, then each row and its factors.
pub(crate) fn step(s: State, line: &[u8]) -> Stepped
    requires { Fits s }
    ensures { Steps result (step (so_far s) line.now) }
{
    if s.count == 0 {
        return count_step(line);
    }
    if s.column < s.count {
        return column_step(s, line);
    }
    if s.factor < s.row * s.count {
        return factor_step(s, line);
    }
    if s.row < s.count {
        return row_step(s, line);
    }
    stopped(Refusal::Layout)
}

// Whether no line is missing.
#[tactic(auto, unfolding(crate::specs::Sheet::complete))]
pub(crate) fn complete(s: State) -> bool
    requires { Fits s }
    ensures { result ≡ complete (so_far s) }
{
    1 <= s.count && s.column == s.count && s.row == s.count && s.factor == s.count * s.count
}

fn stopped(r: Refusal) -> Stepped
    ensures { Steps result (stops r) }
{
    Stepped {
        verdict: Verdict::Bad(r),
        state: fresh(0),
    }
}

fn went(s: State) -> Stepped
    requires { Fits s }
    ensures { Steps result (goes (so_far s)) }
{
    Stepped {
        verdict: Verdict::Good,
        state: s,
    }
}

// `channels=N`, one digit 1..8.
fn count_step(line: &[u8]) -> Stepped
    ensures { Steps result (count_step (behind channels_key line.now)) }
{
    if !starts(line, b"channels=") {
        return stopped(Refusal::Layout);
    }
    if line.len() != 10 {
        return stopped(Refusal::Layout);
    }
    let digit = line[9];
    if digit < b'1' {
        return stopped(Refusal::Layout);
    }
    if b'8' < digit {
        return stopped(Refusal::Layout);
    }
    let count = (digit - b'0') as usize;
    went(fresh(count))
}

// `column=NAME`
fn column_step(s: State, line: &[u8]) -> Stepped
    requires { Fits s × (s.column < s.count) }
    ensures { Steps result (column_step (so_far s) (behind column_key line.now)) }
{
    if !starts(line, b"column=") {
        return stopped(Refusal::Layout);
    }
    match from_bytes(&line[7..]) {
        Some(n) => with_column(s, n),
        None => stopped(Refusal::Malformed),
    }
}

// A column must not be doubled (17).
fn with_column(s: State, n: Name) -> Stepped
    requires { Fits s × (s.column < s.count) }
    ensures { Steps result (column_named (so_far s) (Some n)) }
{
    let at = s.column;
    if stands_in(n, &s.columns[..at]) {
        return stopped(Refusal::DoubledName);
    }
    let mut t = s;
    t.columns[at] = n;
    t.column = at + 1;
    went(t)
}

// `row=NAME`
fn row_step(s: State, line: &[u8]) -> Stepped
    requires { Fits s × (s.row < s.count) }
    ensures { Steps result (row_step (so_far s) (behind row_key line.now)) }
{
    if !starts(line, b"row=") {
        return stopped(Refusal::Layout);
    }
    match from_bytes(&line[4..]) {
        Some(n) => with_row(s, n),
        None => stopped(Refusal::Malformed),
    }
}

// A row must not be doubled (17), and must be a column (19).
fn with_row(s: State, n: Name) -> Stepped
    requires { Fits s × (s.row < s.count) }
    ensures { Steps result (row_named (so_far s) (Some n)) }
{
    let at = s.row;
    if stands_in(n, &s.rows[..at]) {
        return stopped(Refusal::DoubledName);
    }
    if !stands_in(n, &s.columns[..s.column]) {
        return stopped(Refusal::NoColumn);
    }
    let mut t = s;
    t.rows[at] = n;
    t.row = at + 1;
    went(t)
}

// `factor=` with 16 lowercase hex digits.
fn factor_step(s: State, line: &[u8]) -> Stepped
    requires { Fits s × (s.factor < s.row * s.count) }
    ensures { Steps result (factor_step (so_far s) (behind factor_key line.now)) }
{
    if !starts(line, b"factor=") {
        return stopped(Refusal::Layout);
    }
    if line.len() != 23 {
        return stopped(Refusal::Layout);
    }
    match hexadecimal::read(line, 7) {
        Some(bits) => with_factor(s, bits),
        None => stopped(Refusal::Layout),
    }
}

// A factor must be finite.
fn with_factor(s: State, bits: u64) -> Stepped
    requires { Fits s × (s.factor < s.row * s.count) }
    ensures { Steps result (factor_bits (so_far s) bits) }
{
    if !is_finite(float_of(bits)) {
        return stopped(Refusal::Malformed);
    }
    let at = s.factor;
    let mut t = s;
    t.factors[at] = bits;
    t.factor = at + 1;
    went(t)
}
