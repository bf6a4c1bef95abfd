// Cosine and sine of any double: the angle is reduced by TAU, every step of it exact, and Horner's rule runs in one fixed order of operations.
#![tactic(auto)]

ghost use Rattle.std.specs.Prelude.{◌≡◌, ◌<◌, false, get_or, drop};
ghost use Rattle.std.specs.Float.{nan, binary64};
ghost use Rattle.std.specs.Float.Ieee.{rem};
ghost use Rattle.exact.specs.Value.{Units, units_of};
ghost use Rattle.trig.specs.Reduce.{TAU, wrapped, reduced, Far, Inside};
ghost use Rattle.trig.specs.Trig.{horner, cosine_at, sine_at, cosine_of, sine_of, Both};

// 0x401921FB54442D18
const TAU: f64 = 6.283185307179586;

// 0x400921FB54442D18
const PI: f64 = 3.141592653589793;

// 1 / TAU, 0x3FC45F306DC9C883
const INVERSE: f64 = 0.15915494309189535;

// TAU is HIGH + LOW, of 31 binary digits and of 16. 0x401921FB54400000
const HIGH: f64 = 6.2831853069365025;

// 0x3DF0B46000000000
const LOW: f64 = 2.430837753308879e-10;

// 3 * 2^51, amid the doubles that are the whole numbers from 2^52 to 2^53
const MIDDLE: f64 = 6755399441055744.0;

// MIDDLE - 2^21
const BOTTOM: f64 = 6755399438958592.0;

// MIDDLE + 2^21
const TOP: f64 = 6755399443152896.0;

// 2^1023, half of what no double reaches: 0x7FE0000000000000
const HALF: f64 = 8.98846567431158e307;

#[derive(Clone, Copy)]
pub struct Pair {
    pub cos: f64,
    pub sin: f64,
}

// The angle less a whole multiple of TAU, at most PI in size. The remainder is left for what two products do not settle: angles beside an
// odd multiple of PI, multiples of TAU, and those of 2^21 turns or more.
pub fn reduce(x: f64) -> f64
    ensures { result ≡ reduced x }
{
    if x < TAU && x > -TAU {
        return wrap(x);
    }
    let r = turned(x);
    if r < PI && r > -PI && r != 0.0 {
        r
    } else {
        wrap(remainder(x))
    }
}

#[tactic(auto, unfolding(crate::specs::Trig::cosine_of))]
pub fn cosine(x: f64) -> f64
    ensures { result ≡ cosine_of x }
{
    cos_at(reduce(x))
}

// The cosine of an angle below TAU in size: at most one TAU is taken off or put on, and nothing is divided.
pub fn cosine_wrapped(x: f64) -> f64
    ensures { result ≡ cosine_at (wrapped x) }
{
    cos_at(wrap(x))
}

#[tactic(auto, unfolding(crate::specs::Trig::sine_of))]
pub fn sine(x: f64) -> f64
    ensures { result ≡ sine_of x }
{
    sin_at(reduce(x))
}

// Both of one angle, which is reduced once.
#[tactic(auto, unfolding(crate::specs::Trig::cosine_of, crate::specs::Trig::sine_of))]
pub fn both(x: f64) -> Pair
    ensures { Both x result.cos result.sin }
{
    let r = reduce(x);
    let cos = cos_at(r);
    let sin = sin_at(r);
    Pair { cos, sin }
}

// x less q TAU, for a whole number q near x / TAU: t is that much above MIDDLE, where a double has no digits below 1. Where the answer is
// less than PI in size, both products and both differences are exact. A zero settles nothing, since a reduced zero has the sign of x.
fn turned(x: f64) -> f64
    ensures { Far x → Inside result → result ≡ reduced x }
{
    let t = x * INVERSE + MIDDLE;
    if t < TOP && t > BOTTOM {
        let q = t - MIDDLE;
        x - q * HIGH - q * LOW
    } else {
        0.0
    }
}

// x less whole multiples of TAU, with the sign of x, by subtractions alone. (The operator would call the C library's `fmod`.)
fn remainder(x: f64) -> f64
    ensures { result ≡ rem binary64 x TAU }
{
    if x < f64::INFINITY && x > -f64::INFINITY {
        if x > 0.0 {
            taken(x, TAU)
        } else if x < 0.0 {
            -taken(-x, TAU)
        } else {
            x
        }
    } else {
        x - x
    }
}

// r less as many d as it holds: as many 2 d first, and then one d or none. Every step is exact.
fn taken(r: f64, d: f64) -> f64
    requires above { Units r false (units_of r) }
    requires divisor { Units d false (units_of d) × (0 < units_of d) }
    ensures { result ≡ rem binary64 r d }
{
    if r < d {
        r
    } else if d < HALF {
        let rest = taken(r, d + d);
        if rest < d { rest } else { rest - d }
    } else {
        r - d
    }
}

// Above PI less TAU, below -PI plus TAU.
fn wrap(r: f64) -> f64
    ensures { result ≡ wrapped r }
{
    if r > PI {
        r - TAU
    } else if r < -PI {
        r + TAU
    } else {
        r
    }
}

// 1, and the doubles nearest to 1 / (2 k)!
const EVENS: [f64; 14] = [
    1.0,
    0.5,
    0.041666666666666664,
    0.001388888888888889,
    2.48015873015873e-5,
    2.755731922398589e-7,
    2.08767569878681e-9,
    1.1470745597729725e-11,
    4.779477332387385e-14,
    1.5619206968586225e-16,
    4.110317623312165e-19,
    8.896791392450574e-22,
    1.6117375710961184e-24,
    2.4795962632247976e-27,
];

// 1, and the doubles nearest to 1 / (2 k + 1)!
const ODDS: [f64; 14] = [
    1.0,
    0.16666666666666666,
    0.008333333333333333,
    0.0001984126984126984,
    2.7557319223985893e-6,
    2.505210838544172e-8,
    1.6059043836821613e-10,
    7.647163731819816e-13,
    2.8114572543455206e-15,
    8.22063524662433e-18,
    1.9572941063391263e-20,
    3.868170170630684e-23,
    6.446950284384474e-26,
    9.183689863795546e-29,
];

// Horner's rule with alternating signs: c[0] - y (c[1] - y (c[2] - ..)).
fn horner(y: f64, c: &[f64; 14]) -> f64
    ensures { result ≡ horner y (get_or c.now 0 nan) (drop 1 c.now) }
{
    let mut p = c[13];
    for i in (0..13).rev() {
        p = c[i] - y * p;
    }
    p
}

#[tactic(auto, unfolding(crate::specs::Trig::cosine_at))]
fn cos_at(r: f64) -> f64
    ensures { result ≡ cosine_at r }
{
    horner(r * r, &EVENS)
}

#[tactic(auto, unfolding(crate::specs::Trig::sine_at))]
fn sin_at(r: f64) -> f64
    ensures { result ≡ sine_at r }
{
    r * horner(r * r, &ODDS)
}
