// Shifts to the right that remember whether anything was lost: the last bit of the answer is set where a bit that was shifted out was.
ghost use Rattle.std.specs.Prelude.{◌≡◌, ◌+◌, ◌-◌, ◌%◌, ◌<◌};
ghost use Rattle.fma.specs.Words.{words};
ghost use Rattle.fma.specs.Sticky.{Sticky, odd-of};

use super::wide::Wide;

// q with its last bit set
fn made_odd(q: u64) -> u64
    ensures { result ≡ odd-of q }
{
    q - q % 2 + 1
}

pub(crate) fn word(n: u64, s: u64) -> u64
    requires { s < 64 }
    ensures { Sticky result s n }
{
    let q = n >> s;
    if q << s == n { q } else { made_odd(q) }
}

// The upper word, with the lower word lost.
fn upper(h: u64, l: u64) -> u64
    ensures { Sticky result 64 (words h l) }
{
    if l == 0 { h } else { made_odd(h) }
}

fn short(h: u64, l: u64, s: u64) -> Wide
    requires { (0 < s) × (s < 64) }
    ensures { Sticky (words result.hi result.lo) s (words h l) }
{
    let q = l >> s;
    let lo = (h << (64 - s)) + q;
    let hi = h >> s;
    if q << s == l {
        Wide { hi: hi, lo: lo }
    } else {
        let odd = made_odd(lo);
        Wide { hi: hi, lo: odd }
    }
}

pub(crate) fn wide(h: u64, l: u64, s: u64) -> Wide
    requires { 0 < words h l }
    ensures { Sticky (words result.hi result.lo) s (words h l) }
{
    if s == 0 {
        return Wide { hi: h, lo: l };
    }
    if s < 64 {
        return short(h, l, s);
    }
    if s < 128 {
        let u = upper(h, l);
        let v = word(u, s - 64);
        return Wide { hi: 0, lo: v };
    }
    Wide { hi: 0, lo: 1 }
}
