// What a rounded sum and a rounded product are off by, exactly, as doubles; and whether a sum with such an error can only round one way.
#![tactic(auto)]

ghost use Rattle.std.specs.Prelude.{◌≡◌};
ghost use Rattle.roundoff.specs.Roundoff.{sum_off, product_off, enclosure_of};

// Knuth's two-sum: a + b, rounded, less a + b. Exact where it is finite.
pub fn sum_off(a: f64, b: f64) -> f64
    ensures { result ≡ sum_off a b }
{
    let s = a + b;
    let v = s - a;
    ((s - v) - a) + (v - b)
}

// a x, rounded, less a x, of parts: a is h + l, and x is g + m. Exact where it is finite, and the parts are halves of their numbers (`Halved`).
pub fn product_off(a: f64, h: f64, l: f64, x: f64, g: f64, m: f64) -> f64
    ensures { result ≡ product_off a h l x g m }
{
    a * x - h * g - h * m - l * g - l * m
}

// Of two doubles between which s - (t + e), exactly, lies, the one farther from s, and by how much it is more than the other. Where that is 0, `far` is that sum,
// rounded once.
#[derive(Clone, Copy)]
pub struct Enclosure {
    pub far: f64,
    pub off: f64,
}

pub fn enclose(s: f64, t: f64, e: f64) -> Enclosure
    ensures { result ≡ enclosure_of s t e }
{
    let v = t + e;
    let far = s - v * 1.0000000000000009;
    Enclosure {
        far,
        off: far - (s - v * 0.9999999999999991),
    }
}
