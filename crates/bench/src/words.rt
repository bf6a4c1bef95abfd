// What is said of each refusal: one table, in the order of document 01's. A line is told by its words.
use super::say::{behind, part, quote, quote_name, quote_value, row_for, say, say_number};
use crosstalk::names::Crosstalk;
use decimal::digits::place;
use fields::value::number_in;
use fields::words::{is_word, value_at};
use lines::text::line_end;
use naming::{Name, from_bytes, is_name};
use quant::refusal::{Refusal, number};
use std::io::Stderr;
use tables::{Tables, find};

// Of a job's line, a command's or a sheet's: the words for the number, and what they are about. Of a swap it is told whether its first channel is
// known.
pub(crate) fn why(err: Stderr, refusal: Refusal, line: &[u8], known: bool) {
    let n = number(refusal);
    say_row(err, n);
    match n {
        2 => malformed(err, line),
        3 | 16 => own_name(err, line),
        5 => quote_value(err, line, 2, b"shape="),
        7 => unknown(err, line, known),
        13 => size(err, line),
        15 => quote(err, line),
        17 | 19 => quote(err, value(line)),
        _ => {}
    }
}

// Row n of the table, from 1, and a blank where more follows. What is said for 2 goes by the line, and nothing is refused by 14, 20 or 21.
fn say_row(err: Stderr, n: usize) {
    let table: &[u8] = b"
a setting that cannot be used: a rate is above 0, a level from -20 to 20, no tolerance below 0, and each is finite

a full table: 8 channels, 8 shape names, and for each channel 64 bins and 1,024 pulses are the most:
the command takes longer than its span and time_tol together
no shape is called
the plateau is below 0 (with flex=1 it is span less width)
no channel is called
a number worked out on the way is not finite
starts before the row
starts at or past the end of the row
is too short: half its width is over before its first sample
ends past the row
a wrong size:

breaks the layout:
a spline has degree 0 to 5, degree + 1 to 32 controls, controls + degree + 1 knots, and no knot below the one before it:
the name stood before:
no channel has the name:
no column has the name:


a0, the fourth of its six numbers, is not 1:
";
    let at = behind(table, 0, n);
    say(err, part(table, at, line_end(table, at)));
    match n {
        3 | 5 | 7 | 13..=19 | 22 => say(err, b" "),
        _ => {}
    }
}

// 22: the place is the section, from 0. The sections' numbers begin at word 2, and there are at most 16 sections.
pub(crate) fn why_filtered(err: Stderr, refusal: Refusal, place: usize, line: &[u8]) {
    say(err, b"section ");
    say_number(err, place);
    say(err, b", counted from 0: ");
    say_row(err, number(refusal));
    if place < 16 {
        quote_value(err, line, 6 * place + 5, b"");
    }
}

// Of a sampling. 2, 17 and 18 may be the crosstalk's; from 8 to 12 it is a pulse's, and the place is how many were added before it.
pub(crate) fn why_sampled(err: Stderr, refusal: Refusal, place: usize, line: &[u8], c: Crosstalk) {
    let n = number(refusal);
    match n {
        2 => malformed_sampling(err, line, c),
        17 | 18 => crossed(err, n, place, c),
        _ => {
            pulse(err, n, place);
            why(err, refusal, line, true);
        }
    }
}

fn pulse(err: Stderr, n: usize, place: usize) {
    if !(8..=12).contains(&n) {
        return;
    }
    say(err, b"pulse ");
    say_number(err, std::num::wrapping_add_usize(place, 1));
    say(err, b" of this sampling");
    if n == 8 {
        say(err, b":");
    }
    say(err, b" ");
}

// 13, by the line's first word.
fn size(err: Stderr, line: &[u8]) {
    let sizes: &[u8] = b"rows 1 or 2 rows of at most 65,536 samples
run at most 1,024 commands to a run
mixer it is for two rows
iir six numbers for each section, and at most 16 sections
fir 1 to 256 taps
sheet a sheet has at most 4,096 bytes
sample at most 8 names in a crosstalk
";
    let row = row_for(line, sizes);
    say(
        err,
        part(
            row,
            std::num::wrapping_add_usize(place(row, b' '), 1),
            row.len(),
        ),
    );
}

// 2: a name, a width or a number.
fn malformed(err: Stderr, line: &[u8]) {
    if is_misnamed(err, line) {
        return;
    }
    if is_narrow(line) {
        say(err, b"the width is below 0");
        return;
    }
    say(err, b"a number is not finite");
}

// Each place of a name: of channels, shapes and splines, of commands, and of a sheet.
fn is_misnamed(err: Stderr, line: &[u8]) -> bool {
    if is_named(line) {
        return is_no_name(err, line, 1, b"");
    }
    if is_no_name(err, line, 1, b"ch=") {
        return true;
    }
    if !is_word(line, 2, b"shape=") {
        if is_no_name(err, line, 2, b"shape=") {
            return true;
        }
    }
    if is_no_name(err, line, 1, b"a=") {
        return true;
    }
    if is_no_name(err, line, 2, b"b=") {
        return true;
    }
    if is_no_name(err, line, 0, b"column=") {
        return true;
    }
    is_no_name(err, line, 0, b"row=")
}

fn is_named(line: &[u8]) -> bool {
    is_word(line, 0, b"channel") || is_word(line, 0, b"shape") || is_word(line, 0, b"spline")
}

// Says so where what is behind a key in word k is no name.
fn is_no_name(err: Stderr, line: &[u8], k: usize, key: &[u8]) -> bool {
    let Some(value) = value_at(line, k, key) else {
        return false;
    };
    if from_bytes(part(line, value.from, value.to)).is_some() {
        return false;
    }
    say(
        err,
        b"a name is 1 to 16 printable characters, no blank and no = among them: ",
    );
    quote_value(err, line, k, key);
    true
}

fn is_narrow(line: &[u8]) -> bool {
    match number_in(line, 4, b"width=") {
        Some(x) => x < 0.0,
        None => false,
    }
}

// The sampling's own name comes first, then those of the crosstalk, of which there are at most eight, and its factors.
fn malformed_sampling(err: Stderr, line: &[u8], c: Crosstalk) {
    if is_no_name(err, line, 1, b"") {
        return;
    }
    let k = misnamed(c);
    if k < c.count {
        say(err, b"name ");
        say_number(err, k + 1);
        say(err, b" of the crosstalk breaks the rule for names");
        return;
    }
    say(err, b"a factor of the crosstalk is not finite");
}

// The place of the first name that breaks the rule.
fn misnamed(c: Crosstalk) -> usize {
    for k in 0..8 {
        if !is_name(c.names[k]) {
            return k;
        }
    }
    8
}

// The channel or the shape that a line is about.
fn own_name(err: Stderr, line: &[u8]) {
    match value_at(line, 1, b"ch=") {
        Some(value) => quote(err, part(line, value.from, value.to)),
        None => quote_value(err, line, 1, b""),
    }
}

fn unknown(err: Stderr, line: &[u8], known: bool) {
    if !is_word(line, 0, b"swap_phase") {
        own_name(err, line);
        return;
    }
    if known {
        quote_value(err, line, 2, b"b=");
        return;
    }
    quote_value(err, line, 1, b"a=");
}

pub(crate) fn is_known(t: Tables, n: Name) -> bool {
    find(t, n).is_some()
}

// 17 and 18: the place is the name's position, from 1.
fn crossed(err: Stderr, n: usize, position: usize, c: Crosstalk) {
    say(err, b"name ");
    say_number(err, position);
    say(err, b" of the crosstalk: ");
    say_row(err, n);
    if 0 < position {
        quote_at(err, c, position - 1);
    }
}

fn quote_at(err: Stderr, c: Crosstalk, k: usize) {
    if k < 8 {
        quote_name(err, c.names[k]);
    }
}

// What stands behind the key of a sheet's line.
fn value(line: &[u8]) -> &[u8] {
    part(
        line,
        std::num::wrapping_add_usize(place(line, b'='), 1),
        line.len(),
    )
}
