// From a number with a sticky last bit to the nearest double.
ghost use Rattle.std.specs.Prelude.{◌≡◌, ℕ, ◌+◌, ◌-◌, ◌*◌, ◌/◌, ◌%◌, ◌^◌, ◌<◌, ◌≤◌};
ghost use Rattle.std.specs.Float.{binary64};
ghost use Rattle.std.specs.Float.Ieee.{units, round};
ghost use Rattle.fma.specs.Words.{words};
ghost use Rattle.fma.specs.Sticky.{Sticky, Whole};
ghost use Rattle.fma.specs.Pack.{quarter, Nearest, Normal, Kept, Pattern};

use super::significand::Scaled;
use super::sticky;

// A number of two words, times 2^x / 2^2208, rounded once. Where the upper word is 0, nothing may have been lost before.
pub fn nearest_double(negative: bool, h: u64, l: u64, x: u16) -> f64
    ensures { (s : ℕ) → Whole (words h l) x s → result ≡ round binary64 negative s (2 ^ 2208) }
{
    if h == 0 {
        if l == 0 {
            return nought(negative);
        }
    }
    finish(negative, h, l, x as u64 + 64)
}

fn nought(negative: bool) -> f64
    ensures { result ≡ round binary64 negative 0 1 }
{
    if negative {
        return -0.0;
    }
    0.0
}

// Brought to one word with its top bit set, by the count of its leading zeros.
fn normal(h: u64, l: u64, e: u64) -> Scaled
    requires { (0 < words h l) × (64 ≤ e) × (e < 2 ^ 32) }
    ensures { Normal result.m result.e (words h l) e }
{
    if h == 0 {
        let z = u64::leading_zeros(l) as u64;
        let m = l << z;
        let x = e - z;
        return Scaled { m: m, e: x };
    }
    let r = 64 - u64::leading_zeros(h) as u64;
    let j = sticky::wide(h, l, r);
    let x = e + r;
    Scaled { m: j.lo, e: x }
}

// A number of quarters, to the nearest whole number, a tie to the even one.
fn quarters(m: u64) -> u64
    requires { m < 2 ^ 60 }
    ensures { result ≡ quarter m }
{
    (m + 1 + m / 4 % 2) / 4
}

// n / 2^s to the nearest whole number.
fn nearest(n: u64, s: u64) -> u64
    requires { (0 < n) × (11 ≤ s) }
    ensures { Nearest result n s }
{
    if s < 66 {
        let m = sticky::word(n, s - 2);
        quarters(m)
    } else {
        0
    }
}

// The bit pattern of q * 2^k smallest doubles, without a sign.
fn magnitude(q: u64, k: u64) -> u64
    requires { Kept q k }
    ensures { Pattern result q k }
{
    if k < 2046 {
        k * 0x10_0000_0000_0000 + q
    } else {
        0x7ff0_0000_0000_0000
    }
}

fn pack(negative: bool, q: u64, k: u64) -> f64
    requires { Kept q k }
    ensures { result ≡ units binary64 negative q k }
{
    let b = magnitude(q, k);
    if negative {
        f64::from_bits(0x8000_0000_0000_0000 + b)
    } else {
        f64::from_bits(b)
    }
}

// n * 2^e / 2^2272, rounded once. From e = 1187 on the last of 53 digits is a double's last; below it is the smallest double.
fn rounded(negative: bool, n: u64, e: u64) -> f64
    requires { (2 ^ 63 ≤ n) × (e < 2 ^ 33) }
    ensures { (s : ℕ) → Sticky n e s → result ≡ round binary64 negative s (2 ^ 2272) }
{
    if e < 1187 {
        let q = nearest(n, 1198 - e);
        pack(negative, q, 0)
    } else {
        let q = nearest(n, 11);
        pack(negative, q, e - 1187)
    }
}

// A number of two words, times 2^e / 2^2272, rounded once. Where the upper word is 0, nothing may have been lost before.
pub(crate) fn finish(negative: bool, h: u64, l: u64, e: u64) -> f64
    requires { (0 < words h l) × (64 ≤ e) × (e < 2 ^ 32) }
    ensures { (s : ℕ) → Whole (words h l) e s → result ≡ round binary64 negative s (2 ^ 2272) }
{
    let n = normal(h, l, e);
    rounded(negative, n.m, n.e)
}
