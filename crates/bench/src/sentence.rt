// The sentence on standard error for a line that is not done, beside the reply to it.
use super::fault::{ends_in_return, fault};
use super::say::{behind, part, say, say_number};
use super::show::{Reply, show_reply};
use super::words::{is_known, why, why_filtered, why_sampled};
use crosstalk::names::Crosstalk;
use fields::value::{name_in, whole_in};
use lines::text::line_end;
use quant::refusal::{Answer, Refusal, Refused, number};
use std::io;
use std::io::{Stderr, Stdout};
use tables::Tables;

// Writes the reply to the line from `at` to `end`, the line-th, and its sentence unless that is to be passed over. An error where the reply was lost.
pub(crate) fn answered(
    out: Stdout,
    err: Stderr,
    reply: Reply,
    passed: bool,
    text: &[u8],
    at: usize,
    end: usize,
    line: usize,
) -> io::Result<()> {
    show_reply(out, reply, line)?;
    if passed {
        return Ok(());
    }
    match reply {
        Reply::Syntax => syntax(err, part(text, at, end), line),
        Reply::Of(answer) => refused(err, answer, text, at, end, line),
        _ => {}
    }
    Ok(())
}

fn syntax(err: Stderr, words: &[u8], line: usize) {
    say(err, b"line ");
    say_number(err, line);
    say(err, b": syntax: ");
    fault(err, words);
    say(err, b"\n");
}

// A place is a section of a filter, or a line of a sheet.
fn refused(err: Stderr, answer: Answer, text: &[u8], at: usize, end: usize, line: usize) {
    let Err(
        Refused {
            why: refusal,
            place,
        },
    ) = answer
    else {
        return;
    };
    let words = part(text, at, end);
    if number(refusal) == 22 {
        head(err, line, refusal);
        why_filtered(err, refusal, place, words);
        say(err, b"\n");
        return;
    }
    if place == 0 {
        head(err, line, refusal);
        why(err, refusal, words, true);
        say(err, b"\n");
        return;
    }
    if is_behind(words, place) {
        head(err, line, refusal);
        sheet_line(err, place);
        say(err, b" is missing: by its count the sheet ends before it\n");
        return;
    }
    head(err, std::num::wrapping_add_usize(line, place), refusal);
    sheet_line(err, place);
    in_sheet(err, refusal, text, behind(text, end, place));
}

fn head(err: Stderr, line: usize, refusal: Refusal) {
    say(err, b"line ");
    say_number(err, line);
    say(err, b": refused ");
    say_number(err, number(refusal));
    say(err, b": ");
}

fn sheet_line(err: Stderr, place: usize) {
    say(err, b"line ");
    say_number(err, place);
    say(err, b" of the sheet");
}

// Whether a place is behind the lines of a sheet: there it shows that the sheet has too few.
fn is_behind(words: &[u8], place: usize) -> bool {
    match whole_in(words, 1, b"") {
        Some(n) => n < place as u64,
        None => false,
    }
}

fn in_sheet(err: Stderr, refusal: Refusal, text: &[u8], at: usize) {
    let end = line_end(text, at);
    let words = part(text, at, end);
    if number(refusal) != 15 {
        say(err, b":");
    }
    say(err, b" ");
    why(err, refusal, words, true);
    if end == text.len() {
        say(err, b" (its line feed is missing)");
    }
    if ends_in_return(words) {
        say(err, b" (it ends in a carriage return)");
    }
    say(err, b"\n");
}

// The answer to a sampling.
pub(crate) fn answered_sample(
    out: Stdout,
    err: Stderr,
    answer: Answer,
    c: Crosstalk,
    text: &[u8],
    at: usize,
    end: usize,
    line: usize,
) -> io::Result<()> {
    show_reply(out, Reply::Of(answer), line)?;
    let Err(
        Refused {
            why: refusal,
            place,
        },
    ) = answer
    else {
        return Ok(());
    };
    head(err, line, refusal);
    why_sampled(err, refusal, place, part(text, at, end), c);
    say(err, b"\n");
    Ok(())
}

// The answer to a run; a command that is refused is told with its own line. `starts` has where each command's line begins.
pub(crate) fn answered_run(
    out: Stdout,
    err: Stderr,
    answer: Answer,
    t: Tables,
    text: &[u8],
    starts: &[usize],
    line: usize,
) -> io::Result<()> {
    show_reply(out, Reply::Of(answer), line)?;
    let Err(
        Refused {
            why: refusal,
            place,
        },
    ) = answer
    else {
        return Ok(());
    };
    if place < starts.len() {
        let at = starts[place];
        let words = part(text, at, line_end(text, at));
        head(err, line_at(text, at), refusal);
        why(err, refusal, words, is_first_known(t, words));
        say(err, b" (run on line ");
        say_number(err, line);
        say(err, b")\n");
    }
    Ok(())
}

// Of a swap.
fn is_first_known(t: Tables, words: &[u8]) -> bool {
    match name_in(words, 1, b"a=") {
        Some(n) => is_known(t, n),
        None => true,
    }
}

// The number of the line that begins at a place.
fn line_at(text: &[u8], at: usize) -> usize {
    let mut n: usize = 1;
    for k in 0..text.len() {
        if at <= k {
            return n;
        }
        if text[k] == b'\n' {
            n = std::num::wrapping_add_usize(n, 1);
        }
    }
    n
}
