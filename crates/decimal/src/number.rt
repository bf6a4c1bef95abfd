// A word read as a number. The job text: "exactly 16 lowercase hex digits, the double's bits; or a decimal", or a hex float.
ghost use Rattle.std.specs.Prelude.{◌≡◌};
ghost use Rattle.decimal.specs.Digits.{digits_of};
ghost use Rattle.decimal.specs.Number.{number_of, decimal_of, unsigned_of, is_hex, size_of, hex_size_of, power_of, power_at, up_of, down_of};

use super::digits::{figures, mark};
use super::scale::{decimal_scaled, hex_scaled};

// What stands behind the mark.
#[derive(Clone, Copy, Debug, PartialEq, Eq)]
pub enum Power {
    Up(u64),
    Down(u64),
}

// The number that a whole word is, if it is one. A word of 16 hex digits is never a decimal.
pub fn read(word: &[u8]) -> Option<f64>
    ensures { result ≡ number_of word.now }
{
    if word.len() != 16 {
        return decimal(word);
    }
    match hexadecimal::read(word, 0) {
        Some(bits) => Some(lines::field::float_of(bits)),
        None => decimal(word),
    }
}

#[tactic(auto, unfolding(crate::specs::Number::decimal_of))]
fn decimal(word: &[u8]) -> Option<f64>
    ensures { result ≡ decimal_of word.now }
{
    match word {
        [] => None,
        [b'-', text @ ..] => unsigned(true, text),
        _ => unsigned(false, word),
    }
}

// A number without its sign.
fn unsigned(minus: bool, text: &[u8]) -> Option<f64>
    ensures { result ≡ unsigned_of minus text.now }
{
    if is_hex(text) {
        hex_sized(minus, &text[2..])
    } else {
        sized(minus, text)
    }
}

#[tactic(auto, unfolding(crate::specs::Number::is_hex))]
fn is_hex(text: &[u8]) -> bool
    ensures { result ≡ is_hex text.now }
{
    matches!(text, [b'0', b'x' | b'X', ..])
}

fn sized(minus: bool, text: &[u8]) -> Option<f64>
    ensures { result ≡ size_of minus text.now }
{
    let e = mark(text, b'e');
    match power_at(text, e)? {
        Power::Up(p) => decimal_scaled(minus, &text[..e], p, 0),
        Power::Down(p) => decimal_scaled(minus, &text[..e], 0, p),
    }
}

fn hex_sized(minus: bool, text: &[u8]) -> Option<f64>
    ensures { result ≡ hex_size_of minus text.now }
{
    let e = mark(text, b'p');
    match power_at(text, e)? {
        Power::Up(p) => hex_scaled(minus, &text[..e], p, 0),
        Power::Down(p) => hex_scaled(minus, &text[..e], 0, p),
    }
}

// Behind the mark at a place.
fn power_at(text: &[u8], p: usize) -> Option<Power>
    ensures { result ≡ power_at p text.now }
{
    if text.len() <= p {
        return Some(Power::Up(0));
    }
    power_of(&text[p + 1..])
}

// A sign, which may be missing, and 1 to 15 digits.
#[tactic(auto, unfolding(crate::specs::Number::power_of))]
fn power_of(text: &[u8]) -> Option<Power>
    ensures { result ≡ power_of text.now }
{
    match text {
        [] => None,
        [b'-', digits @ ..] => Some(Power::Down(figures(digits)?)),
        [b'+', digits @ ..] => Some(Power::Up(figures(digits)?)),
        _ => Some(Power::Up(figures(text)?)),
    }
}
