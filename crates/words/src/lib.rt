// The words of a line: behind its letter, each 16 lowercase hex digits after one space, counted from 0. And where a line of a text ends.
// For the programs that run outside vectors.
#![tactic(auto)]

ghost use Rattle.std.specs.Prelude.{◌≡◌, ◌≤◌};
ghost use Rattle.lines.specs.Field.{number_at};
ghost use Rattle.words.specs.Words.{word_in, float_in, choice_in, name_in, level_of, is_word, readable_as, end_in};

use lines::field::{float_of, number_at};
use lines::text::line_end;
use naming::Name;

// Word k of a line; 0 where there is none.
pub fn word(line: &[u8], k: u8) -> u64
    ensures { result ≡ word_in line.now k }
{
    word_at(line, k as usize)
}

fn word_at(line: &[u8], k: usize) -> u64
    requires { k ≤ 257 }
    ensures { result ≡ word_in line.now k }
{
    number_at(line, 1 + 17 * k).unwrap_or(0)
}

// The double whose bits are word k.
pub fn float(line: &[u8], k: u8) -> f64
    ensures { result ≡ float_in line.now k }
{
    float_of(word(line, k))
}

// Whether word k is another than 0.
pub fn choice(line: &[u8], k: u8) -> bool
    ensures { result ≡ choice_in line.now k }
{
    word(line, k) != 0
}

// The level that word k stands for, where `mid` stands for level 0; a word above twice `mid` stands for none, and is taken for level 0.
pub fn level(line: &[u8], k: u8, mid: u8) -> i32
    ensures { result ≡ level_of mid (word_in line.now k) }
{
    level_of(word(line, k), mid)
}

fn level_of(w: u64, mid: u8) -> i32
    ensures { result ≡ level_of mid w }
{
    if 2 * (mid as u64) < w {
        return 0;
    }
    w as i32 - mid as i32
}

// The name whose three numbers start at word k.
pub fn name(line: &[u8], k: u8) -> Name
    ensures { result ≡ name_in line.now k }
{
    let at = k as usize;
    Name {
        first: word_at(line, at),
        second: word_at(line, at + 1),
        len: word_at(line, at + 2) as usize,
    }
}

// Whether a line is a letter and so many words. Kept: from the first word on. From the last on, a line that is refused for its last word takes less, and one that
// is refused for its first as much more.
#[tactic(auto, unfolding(crate::specs::Words::words_stand, crate::specs::Words::readable_as))]
pub fn readable(line: &[u8], count: u8) -> bool
    ensures { result ≡ readable_as line.now count }
{
    let words = count as usize;
    if line.len() != 1 + 17 * words {
        return false;
    }
    for k in 0..words {
        if !is_word(line, 1 + 17 * k) {
            return false;
        }
    }
    true
}

fn is_word(line: &[u8], at: usize) -> bool
    ensures { result ≡ is_word (number_at line.now at) }
{
    number_at(line, at).is_some()
}

// Where the line at a place ends, within its text.
pub fn end_of(text: &[u8], at: usize) -> usize
    ensures { result ≡ end_in text.now at }
{
    if text.len() <= at {
        return text.len();
    }
    line_end(text, at)
}
