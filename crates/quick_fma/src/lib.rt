// Fused multiply-add by doubles, where they settle it, and else by `fma`, in whole numbers. The rounded product and the rounded sum are off by doubles,
// exactly; and their sum, less these, nearly always lies where it can only round one way.
#![tactic(auto)]

ghost use Rattle.std.specs.Prelude.{◌≡◌, true};
ghost use Rattle.std.specs.Float.{binary64};
ghost use Rattle.fma.specs.Fused.{fma};
ghost use Rattle.quick_fma.specs.Quick.{roomy_of, upper_of, trial_of};

use ieee::finite::is_finite;
use roundoff::{Enclosure, enclose, product_off, sum_off};

// a * x + c with one rounding: the Rust's `f64::mul_add`.
pub fn mul_add(a: f64, x: f64, c: f64) -> f64
    ensures { result ≡ fma binary64 a x c }
{
    if roomy(a) && roomy(x) {
        by_doubles(a, x, c)
    } else {
        fma::mul_add(a, x, c)
    }
}

// With p the rounded product, s the rounded sum of p and c, e what p is off by and t what s is, s - (t + e) is to be rounded.
fn by_doubles(a: f64, x: f64, c: f64) -> f64
    requires { (roomy_of a ≡ true) × (roomy_of x ≡ true) }
    ensures { result ≡ fma binary64 a x c }
{
    let h = upper(a);
    let l = a - h;
    let g = upper(x);
    let m = x - g;
    let w = trial(a, h, l, x, g, m, c);
    if w.off == 0.0 {
        return w.far;
    }
    let p = a * x;
    let t = sum_off(p, c);
    let e = product_off(a, h, l, x, g, m);
    // Where one of the two is 0, their sum is not rounded.
    if t == 0.0 || e == 0.0 {
        let r = (p + c) - (t + e);
        if is_finite(r) {
            return r;
        }
    }
    fma::mul_add(a, x, c)
}

// 0, or from 2^-485 on in size: the product of two such has no digit below the smallest double.
pub fn roomy(x: f64) -> bool
    ensures { result ≡ roomy_of x }
{
    if x.is_nan() {
        return false;
    }
    let n = x.to_bits() & 0x7fff_ffff_ffff_ffff;
    n == 0 || n >= 0x21a0_0000_0000_0000
}

// The upper 26 digits, rounded; a NaN is one.
pub fn upper(x: f64) -> f64
    ensures { result ≡ upper_of x }
{
    if x.is_nan() {
        x
    } else {
        f64::from_bits((x.to_bits() + 0x400_0000) & 0xffff_ffff_f800_0000)
    }
}

// For an a and an x that are split once for many products: a is h + l, and x is g + m. Where `off` is 0 and all are as `upper` splits them, `far` is the answer.
pub fn trial(a: f64, h: f64, l: f64, x: f64, g: f64, m: f64, c: f64) -> Enclosure
    ensures { result ≡ trial_of a h l x g m c }
{
    let p = a * x;
    enclose(p + c, sum_off(p, c), product_off(a, h, l, x, g, m))
}
