// What is written to standard error, a piece at a time.
use super::walk::end_of;
use decimal::digits::place;
use fields::words::{is_word, value_at};
use lines::text::line_end;
use naming::Name;
use std::io;
use std::io::{Stderr, Write};

// What cannot be written there is passed over.
pub(crate) fn say(err: Stderr, words: &[u8]) {
    let _ = err.write_all(words);
}

pub(crate) fn say_number(err: Stderr, n: usize) {
    let _ = print!(err; "{n}");
}

// A line: what failed, and the reason that the system gives.
pub(crate) fn fail(err: Stderr, what: &[u8], error: io::Error) {
    let mut text = [0u8; 256];
    let mut room = &mut text[..];
    let _ = write!(room, "{error}");
    let n = 256usize.saturating_sub(room.len());
    say(err, what);
    say(err, b": ");
    say(err, reason(&text[..n]));
    say(err, b"\n");
}

// The words of an error, without the number that stands behind them in brackets.
fn reason(text: &[u8]) -> &[u8] {
    let end = place(text, b'(');
    if end < text.len() {
        return part(text, 0, end.saturating_sub(1));
    }
    text
}

// Words of the job, as they stand: at most 40 bytes, and `?` for each that is not printable.
pub(crate) fn quote(err: Stderr, words: &[u8]) {
    let mut out = [b'?'; 40];
    let n = words.len().min(40);
    for (shown, word) in out.iter_mut().zip(words) {
        *shown = printable(*word);
    }
    say(err, b"'");
    say(err, &out[..n]);
    if 40 < words.len() {
        say(err, b"..");
    }
    say(err, b"'");
}

fn printable(b: u8) -> u8 {
    if (0x20..=0x7E).contains(&b) { b } else { b'?' }
}

// What stands behind a key in word k of a line.
pub(crate) fn quote_value(err: Stderr, line: &[u8], k: usize, key: &[u8]) {
    if let Some(value) = value_at(line, k, key) {
        quote(err, part(line, value.from, value.to));
    }
}

pub(crate) fn quote_name(err: Stderr, n: Name) {
    let mut bytes = [0u8; 16];
    naming::write(n, &mut bytes, 0);
    quote(err, &bytes[..n.len.min(16)]);
}

// From one place of a text to another; nothing where that is not within it.
pub(crate) fn part(text: &[u8], from: usize, to: usize) -> &[u8] {
    if to < from {
        return &text[..0];
    }
    if text.len() < to {
        return &text[..0];
    }
    &text[from..to]
}

// Where line `k` behind the one that ends at a place begins.
pub(crate) fn behind(text: &[u8], end: usize, k: usize) -> usize {
    let mut at = end;
    for _ in 1..k {
        at = line_end(text, std::num::wrapping_add_usize(at, 1));
    }
    std::num::wrapping_add_usize(at, 1)
}

// The row of a table that begins with a line's first word; nothing where none does.
pub(crate) fn row_for<'a, 'b>(line: &'b [u8], table: &'a [u8]) -> &'a [u8] {
    let mut at: usize = 0;
    // Kept: bytes have no `split`, and a table parted in two at each line feed is no plainer.
    while at < table.len() {
        let end = end_of(table, at);
        let row = part(table, at, end);
        if is_word(line, 0, word(row, 0)) {
            return row;
        }
        at = end + 1;
    }
    part(table, 0, 0)
}

pub(crate) fn word(line: &[u8], k: usize) -> &[u8] {
    match value_at(line, k, b"") {
        Some(at) => part(line, at.from, at.to),
        None => part(line, 0, 0),
    }
}
