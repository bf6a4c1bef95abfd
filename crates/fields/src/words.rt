// Words, parted by one blank: two blanks have an empty word between them.
ghost use Rattle.std.specs.Prelude.{◌≡◌, length};
ghost use Rattle.fields.specs.Words.{words_of, blank_of, Begins, Found, is_word, word_in};

use decimal::digits::place;
use sheet::line::starts;

// Where a value stands in a line.
#[derive(Clone, Copy, Debug, PartialEq, Eq)]
pub struct Span {
    pub from: usize,
    pub to: usize,
}

// How many words a line has. The empty line has one, the empty word.
pub fn count(line: &[u8]) -> usize
    ensures { result ≡ length (words_of line.now) }
{
    let mut blanks: usize = 0;
    for b in line {
        blanks += blank(*b);
    }
    blanks + 1
}

// 1 for a blank, 0 for any other byte.
fn blank(b: u8) -> usize
    ensures { result ≡ blank_of b }
{
    if b == b' ' { 1 } else { 0 }
}

// Where word k begins; the line's end where there is none.
fn start(line: &[u8], k: usize) -> usize
    ensures { Begins line.now k result }
{
    let mut at: usize = 0;
    for _ in 0..k {
        let end = at + place(&line[at..], b' ');
        if end == line.len() {
            return end;
        }
        at = end + 1;
    }
    at
}

// Where the value behind a key stands, if word k starts with that key.
pub fn value_at(line: &[u8], k: usize, key: &[u8]) -> Option<Span>
    ensures { Found line.now k key.now result }
{
    let from = start(line, k);
    let to = from + place(&line[from..], b' ');
    if !starts(&line[from..to], key) {
        return None;
    }
    Some(Span {
        from: from + key.len(),
        to,
    })
}

// Whether word k is this one.
pub fn is_word(line: &[u8], k: usize, key: &[u8]) -> bool
    ensures { result ≡ is_word key.now (word_in line.now k) }
{
    match value_at(line, k, key) {
        Some(value) => value.from == value.to,
        None => false,
    }
}
