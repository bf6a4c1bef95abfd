// The lines that are lists: names, numbers or lines as many as a count says. A caller takes the names by `fields`, the numbers by `numbers`, and the
// lines behind the line by `job_sheet`.
ghost use Rattle.std.specs.Prelude.{◌≡◌, unwrap_or};
ghost use Rattle.fields.specs.Words.{words_of};
ghost use Rattle.job.specs.List.{list_of, mixer_of, counted_of, crosstalk_of, sheet_of, spline_of, numbers_from, stops_at};
ghost use Rattle.job.specs.declared.line.Line.TheVariants.{Syntax};

use super::line::Line;
use decimal::digits::place;
use fields::value::{name_in, whole_in};
use fields::words::{count, is_word};

#[tactic(auto, unfolding(crate::specs::List::list_of))]
pub(crate) fn list_line(line: &[u8]) -> Option<Line>
    ensures { unwrap_or result Syntax ≡ list_of (words_of line.now) }
{
    if is_word(line, 0, b"mixer") {
        return mixer(line);
    }
    if is_word(line, 0, b"iir") {
        return Some(Line::Iir(counted(line)?));
    }
    if is_word(line, 0, b"fir") {
        return Some(Line::Fir(counted(line)?));
    }
    if is_word(line, 0, b"crosstalk") {
        return crosstalk(line);
    }
    if is_word(line, 0, b"sheet") {
        return sheet(line);
    }
    if is_word(line, 0, b"spline") {
        return spline(line);
    }
    None
}

// `mixer N N N N N N`.
#[tactic(auto, unfolding(crate::specs::List::mixer_of))]
fn mixer(line: &[u8]) -> Option<Line>
    ensures { unwrap_or result Syntax ≡ mixer_of (words_of line.now) }
{
    if count(line) != 7 {
        return None;
    }
    if !all_numbers(line, 1) {
        return None;
    }
    Some(Line::Mixer)
}

// `WORD COUNT N..`: the count, if so many numbers stand behind it.
#[tactic(auto, unfolding(crate::specs::List::counted_of))]
fn counted(line: &[u8]) -> Option<u64>
    ensures { result ≡ counted_of (words_of line.now) }
{
    if count(line) < 2 {
        return None;
    }
    let n = whole_in(line, 1, b"")?;
    if (count(line) - 2) as u64 != n {
        return None;
    }
    if !all_numbers(line, 2) {
        return None;
    }
    Some(n)
}

// `crosstalk N NAME.. FACTOR..`. More than 511 names have more factors than a job has bytes.
#[tactic(auto, unfolding(crate::specs::List::crosstalk_of))]
fn crosstalk(line: &[u8]) -> Option<Line>
    ensures { unwrap_or result Syntax ≡ crosstalk_of (words_of line.now) }
{
    let n = whole_in(line, 1, b"")?;
    if 511 < n {
        return None;
    }
    let names = n as usize;
    if count(line) != names * names + names + 2 {
        return None;
    }
    if !all_numbers(line, names + 2) {
        return None;
    }
    Some(Line::Crosstalk(n))
}

// `sheet COUNT`.
#[tactic(auto, unfolding(crate::specs::List::sheet_of))]
fn sheet(line: &[u8]) -> Option<Line>
    ensures { unwrap_or result Syntax ≡ sheet_of (words_of line.now) }
{
    if count(line) != 2 {
        return None;
    }
    Some(Line::Sheet(whole_in(line, 1, b"")?))
}

// `spline NAME degree=D controls=C knots=K N..`: C controls, then K knots. Compared one after the other: no sum has to fit.
#[tactic(auto, unfolding(crate::specs::List::spline_of))]
fn spline(line: &[u8]) -> Option<Line>
    ensures { unwrap_or result Syntax ≡ spline_of (words_of line.now) }
{
    if count(line) < 5 {
        return None;
    }
    let n = name_in(line, 1, b"")?;
    let degree = whole_in(line, 2, b"degree=")?;
    let controls = whole_in(line, 3, b"controls=")?;
    let knots = whole_in(line, 4, b"knots=")?;
    let left = (count(line) - 5) as u64;
    if left < controls {
        return None;
    }
    if left - controls != knots {
        return None;
    }
    if !all_numbers(line, 5) {
        return None;
    }
    Some(Line::Spline(n, degree, controls, knots))
}

// Whether every word from word k on is a number.
pub fn all_numbers(line: &[u8], k: usize) -> bool
    ensures { result ≡ numbers_from k (words_of line.now) }
{
    let mut at: usize = 0;
    let mut left = k;
    while at <= line.len() {
        let end = at + place(&line[at..], b' ');
        if stops(left, &line[at..end]) {
            return false;
        }
        if end == line.len() {
            return true;
        }
        at = end + 1;
        left = left.saturating_sub(1);
    }
    true
}

// Whether a word is to be a number, since none is left to pass over, and is none.
#[tactic(auto, unfolding(crate::specs::List::stops_at))]
fn stops(left: usize, word: &[u8]) -> bool
    ensures { result ≡ stops_at left word.now }
{
    left == 0 && decimal::number::read(word).is_none()
}
