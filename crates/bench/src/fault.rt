// What is wrong with a line that cannot be read.
use super::say::{part, quote_value, row_for, say, word};
use super::show::Reply;
use decimal::digits::place;
use fields::value::{flag_in, level_in, name_in, number_in, whole_in};
use fields::words::{count, is_word};
use numbers::numbers;
use std::io::Stderr;

pub(crate) fn fault(err: Stderr, line: &[u8]) {
    if ends_in_return(line) {
        say(
            err,
            b"the line ends in a carriage return, and so may others: lines end in a line feed alone (tr -d '\\r' takes the returns away)",
        );
        return;
    }
    if place(line, b'\t') < line.len() {
        say(err, b"a tab stands in it: words are parted by one blank");
        return;
    }
    if has_empty_word(line) {
        say(
            err,
            b"a blank too many: words are parted by one blank, and none stands at an end",
        );
        return;
    }
    if is_known(err, line) {
        return;
    }
    say(err, b"no line begins with ");
    quote_value(err, line, 0, b"");
    if is_of_mixer(line) {
        say(
            err,
            b": the mixer's matrix and its offsets are one line, mixer N N N N N N (docs/JOBS.md)",
        );
        return;
    }
    say(err, b" (docs/JOBS.md has the lines)");
}

// What older jobs had in two lines.
fn is_of_mixer(line: &[u8]) -> bool {
    is_word(line, 0, b"iq") || is_word(line, 0, b"offset")
}

// Whether a line cannot be read for its carriage return.
pub(crate) fn is_returned(reply: Reply, line: &[u8]) -> bool {
    matches!(reply, Reply::Syntax) && ends_in_return(line)
}

pub(crate) fn ends_in_return(line: &[u8]) -> bool {
    line.ends_with(b"\r")
}

// Two blanks side by side, or one at an end.
fn has_empty_word(line: &[u8]) -> bool {
    let mut before = b' ';
    for b in line {
        if *b == b' ' && before == b' ' {
            return true;
        }
        before = *b;
    }
    before == b' '
}

// The forms of the lines, as docs/JOBS.md has them. Where one begins with the line's first word, says what is wrong, and answers true.
fn is_known(err: Stderr, line: &[u8]) -> bool {
    let forms: &[u8] = b"tables amp_tol=N time_tol=N oversize=0|1
channel NAME base=N delta=N phase=N
shape NAME hann
spline NAME degree=D controls=C knots=K N..
play ch=NAME shape=NAME amp=N width=N plateau=N drag=N freq=N phase=N flex=0|1 start=N span=N
shift_phase ch=NAME phase=N start=N span=N
set_phase ch=NAME phase=N start=N span=N
shift_freq ch=NAME freq=N start=N span=N
set_freq ch=NAME freq=N start=N span=N
swap_phase a=NAME b=NAME start=N span=N
barrier start=N span=N
run
states
crosstalk COUNT NAME.. FACTOR..
sheet COUNT
rows R LENGTH
sample NAME rate=N delay=N level=INTEGER
mixer N N N N N N
iir COUNT N..
fir COUNT N..
print
";
    let form = row_for(line, forms);
    if form.is_empty() {
        return false;
    }
    first_fault(err, line, form);
    say(err, b" in: ");
    say(err, form);
    say(err, b" (docs/JOBS.md)");
    true
}

// Word by word: the first that is missing, that is not what the form has there, or that is behind the form's last.
fn first_fault(err: Stderr, line: &[u8], form: &[u8]) {
    let many = count(line);
    let wanted = count(form);
    for k in 1..wanted {
        if many <= k {
            say(err, word(form, k));
            say(err, b" is missing");
            return;
        }
        if is_many(word(form, k)) {
            first_of_many(err, line, k, many);
            return;
        }
        if !fits(line, k, word(form, k)) {
            quote_value(err, line, k, b"");
            say(err, b" stands where ");
            say(err, word(form, k));
            say(err, b" belongs");
            return;
        }
    }
    if many <= wanted {
        say(err, b"fewer lines behind it than it says");
        return;
    }
    quote_value(err, line, wanted, b"");
    say(err, b" is too many");
}

fn is_many(field: &[u8]) -> bool {
    place(field, b'.') < field.len()
}

// The numbers from word k on: one of the first that cannot be read, or there are too many or too few. A crosstalk has names before them.
fn first_of_many(err: Stderr, line: &[u8], k: usize, many: usize) {
    let mut given = [0.0; 1024];
    let n = numbers(line, k, &mut given);
    if many <= k {
        return;
    }
    if is_word(line, 0, b"crosstalk") {
        say(
            err,
            b"not as many names and numbers as it says, or one that is none,",
        );
        return;
    }
    if n < 1024 && n < many - k {
        quote_value(err, line, k + n, b"");
        say(err, b" is no number");
        return;
    }
    say(err, b"not as many numbers as it says");
}

// Whether word k is what a field of a form stands for.
fn fits(line: &[u8], k: usize, field: &[u8]) -> bool {
    let m = place(field, b'=');
    if m < field.len() {
        return is_kind(
            line,
            k,
            part(field, 0, m + 1),
            part(field, m + 1, field.len()),
        );
    }
    is_kind(line, k, part(field, 0, 0), field)
}

fn is_kind(line: &[u8], k: usize, key: &[u8], kind: &[u8]) -> bool {
    if is_word(kind, 0, b"N") {
        return number_in(line, k, key).is_some();
    }
    if is_word(kind, 0, b"NAME") {
        return name_in(line, k, key).is_some();
    }
    if is_word(kind, 0, b"0|1") {
        return flag_in(line, k, key).is_some();
    }
    if is_word(kind, 0, b"INTEGER") {
        return level_in(line, k, key).is_some();
    }
    if is_word(kind, 0, b"hann") {
        return is_word(line, k, kind);
    }
    whole_in(line, k, key).is_some()
}
