// A line of the correction, and a sample as it takes it. What goes into a fused product is split in two parts once, for all products that it is a factor of.
ghost use Rattle.std.specs.Prelude.{◌≡◌, true, IfSome};
ghost use Rattle.quick_fma.specs.Quick.{roomy_of};
ghost use Rattle.mixer.specs.Mixer.{mixed, corrected};
ghost use Rattle.mixer.specs.Turns.{InHalves};

use quick_fma::{mul_add, roomy, trial, upper};

// A row of the matrix and its offset; m is high + low.
#[derive(Clone, Copy)]
pub(crate) struct Line {
    pub m: f64,
    high: f64,
    low: f64,
    pub n: f64,
    pub offset: f64,
    ghost split: { InHalves m high low },
}

impl Line {
    pub(crate) fn new(m: f64, n: f64, offset: f64) -> Line
        ensures { (result.m ≡ m) × (result.n ≡ n) × (result.offset ≡ offset) }
    {
        let high = upper(m);
        Line {
            m,
            high,
            low: m - high,
            n,
            offset,
        }
    }

    pub(crate) fn corrected(self, x: f64, y: f64) -> f64
        ensures { result ≡ corrected self.m self.n self.offset x y }
    {
        mul_add(self.m, x, self.n * y) + self.offset
    }

    // m x + n y of two samples, fused, where doubles settle both.
    pub(crate) fn sums(self, a: Sample, b: Sample) -> Option<(f64, f64)>
        requires { roomy_of self.m ≡ true }
        ensures { IfSome result (λ p. (p.0 ≡ mixed self.m self.n a.x a.y) × (p.1 ≡ mixed self.m self.n b.x b.y)) }
    {
        let one = trial(
            self.m,
            self.high,
            self.low,
            a.x,
            a.high,
            a.low,
            self.n * a.y,
        );
        let two = trial(
            self.m,
            self.high,
            self.low,
            b.x,
            b.high,
            b.low,
            self.n * b.y,
        );
        if one.off == 0.0 && two.off == 0.0 {
            Some((one.far, two.far))
        } else {
            None
        }
    }
}

// One of I, x, which is high + low, and one of Q.
#[derive(Clone, Copy)]
pub(crate) struct Sample {
    pub x: f64,
    high: f64,
    low: f64,
    pub y: f64,
    ghost split: { InHalves x high low },
    ghost room: { roomy_of x ≡ true },
}

impl Sample {
    // Where x leaves no room, doubles settle nothing.
    pub(crate) fn split(x: f64, y: f64) -> Option<Sample>
        ensures { IfSome result (λ s. (s.x ≡ x) × (s.y ≡ y)) }
    {
        if !roomy(x) {
            return None;
        }
        let high = upper(x);
        Some(Sample {
            x,
            high,
            low: x - high,
            y,
        })
    }
}
