// A significand times a power, rounded once.
ghost use Rattle.std.specs.Prelude.{◌≡◌, false, suc, ◌+◌, ◌^◌, ◌≤◌, ◌<◌, min, length, drop};
ghost use Rattle.std.specs.Float.Ieee.Exact.{HasValue};
ghost use Rattle.wide_decimal.specs.Figures.{worth, without};
ghost use Rattle.decimal.specs.Digits.{place_of};
ghost use Rattle.decimal.specs.Number.{moved, significand_of, few_of, scaled_by};
ghost use Rattle.decimal.specs.Ways.{quick_by, figures_in, pointed_in};

use super::digits::{behind, digit, place};
use super::significand::few;

// Of up to 15 digits and a power up to 10^22 both are doubles, and one product or one quotient is all. Any other decimal is worked out in full.
pub(crate) fn decimal_scaled(minus: bool, text: &[u8], up: u64, down: u64) -> Option<f64>
    requires { (up < 10 ^ 15) × (down < 10 ^ 15) }
    ensures { result ≡ moved minus 10 1 (significand_of 10 text.now) up down }
{
    let Some(short) = few(10, 15, text) else {
        return wide(minus, text, up, down);
    };
    let Some(x) = quick(minus, short.digits, up, down + short.fraction) else {
        return wide(minus, text, up, down);
    };
    Some(x)
}

fn quick(minus: bool, n: u64, up: u64, down: u64) -> Option<f64>
    requires { n < 10 ^ 15 }
    ensures { result ≡ quick_by minus n up down }
{
    if down <= up {
        if 22 < up - down {
            return None;
        }
        return Some(signed(minus, n) * ten_to(up - down));
    }
    if 22 < down - up {
        return None;
    }
    Some(signed(minus, n) / ten_to(down - up))
}

// The point moves by the power, within the digits or past them.
fn wide(minus: bool, text: &[u8], up: u64, down: u64) -> Option<f64>
    requires { (up < 10 ^ 15) × (down < 10 ^ 15) }
    ensures { result ≡ moved minus 10 1 (significand_of 10 text.now) up down }
{
    let point = place(text, b'.');
    if !pointed(text, point) {
        return None;
    }
    Some(placed(minus, text, point, up as usize, down as usize))
}

// Whether a text is of figures but for a point, and has one.
fn pointed(text: &[u8], point: usize) -> bool
    requires { point ≡ place_of 46 text.now }
    ensures { result ≡ pointed_in text.now }
{
    let next = behind(point, text.len());
    if point + (text.len() - next) < 1 {
        return false;
    }
    all_figures(&text[..point]) && all_figures(&text[next..])
}

fn placed(minus: bool, text: &[u8], point: usize, up: usize, down: usize) -> f64
    requires { (point ≤ length text.now) × (up < 10 ^ 15) × (down < 10 ^ 15) }
    ensures { result ≡ scaled_by minus 10 (worth (without point text.now)) up (down + length (drop (suc point) text.now)) }
{
    let whole = point + up;
    if down <= whole {
        return wide_decimal::nearest(minus, text, point, whole - down, 0);
    }
    wide_decimal::nearest(minus, text, point, 0, down - whole)
}

fn all_figures(text: &[u8]) -> bool
    ensures { result ≡ figures_in text.now }
{
    text.iter().all(|b| digit(*b) < 10)
}

// 16 hex digits are one word. A power beyond 2^4000 is infinite, one below 2^-2208 is nothing.
pub(crate) fn hex_scaled(minus: bool, text: &[u8], up: u64, down: u64) -> Option<f64>
    requires { (up < 10 ^ 15) × (down < 10 ^ 15) }
    ensures { result ≡ moved minus 2 4 (few_of 16 16 text.now) up down }
{
    let whole = few(16, 16, text)?;
    Some(binary(minus, whole.digits, up, down + 4 * whole.fraction))
}

fn binary(minus: bool, n: u64, up: u64, down: u64) -> f64
    ensures { result ≡ scaled_by minus 2 n up down }
{
    if down <= up {
        return fma::pack::nearest_double(minus, 0, n, (2208 + (up - down).min(4000)) as u16);
    }
    fma::pack::nearest_double(minus, 0, n, (2208 - (down - up).min(2208)) as u16)
}

// The double that n is.
fn signed(minus: bool, n: u64) -> f64
    requires { n < 10 ^ 15 }
    ensures { HasValue result minus n 1 }
{
    let x = n as f64;
    if minus { -x } else { x }
}

// The double that 10 ^ k is.
fn ten_to(k: u64) -> f64
    requires { k ≤ 22 }
    ensures { HasValue result false (10 ^ k) 1 }
{
    let mut p = 1.0;
    for _ in 0..k {
        p *= 10.0;
    }
    p
}
