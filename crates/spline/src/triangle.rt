// The de Boor triangle, a column at a time in six numbers.
ghost use Rattle.std.specs.Prelude.{◌≡◌, ◌+◌, ◌<◌, length};
ghost use Rattle.spline.specs.Spline.{alpha_of, blend_of, d_at};
ghost use Rattle.spline.specs.Walk.{Within, Column, wide_rounds};

use super::row::Spline;
use ieee::finite::is_finite;

impl Spline<'_> {
    // d[degree] after as many rounds, on the span k.
    pub(crate) fn de_boor(&self, k: usize, x: f64) -> f64
        requires { Within self.now.degree k }
        ensures { result ≡ d_at self.now.row.now self.now.degree k x self.now.degree self.now.degree }
    {
        let mut d = [0.0f64; 6];
        self.load(&mut d, k, x);
        for r in 0..self.degree {
            self.column(&mut d, k, x, r);
        }
        d[self.degree]
    }

    // Column 0: the controls k-degree to k.
    fn load(&self, d: &mut [f64; 6], k: usize, x: f64)
        requires { Within self.now.degree k × (length d.old ≡ 6) }
        ensures { Column self.now.row.now self.now.degree k x 0 d.new }
    {
        for j in 0..self.degree + 1 {
            d[j] = self.control(j + k - self.degree);
        }
    }

    // From column r to column r+1: j from degree down to r+1.
    fn column(&self, d: &mut [f64; 6], k: usize, x: f64, r: usize)
        requires { Within self.now.degree k × (r < self.now.degree) × Column self.now.row.now self.now.degree k x r d.old }
        ensures { Column self.now.row.now self.now.degree k x (r + 1) d.new }
    {
        for j in (r + 1..self.degree + 1).rev() {
            let lo = self.knot(j + k - self.degree);
            let hi = self.knot(j + k - r);
            d[j] = step(x, lo, hi, d[j - 1], d[j]);
        }
    }

    // Whether hi - lo is finite in every step on the span k.
    pub(crate) fn all_wide(&self, k: usize) -> bool
        requires { Within self.now.degree k }
        ensures { result ≡ wide_rounds self.now.row.now self.now.degree k self.now.degree }
    {
        for r in 0..self.degree {
            for j in r + 1..self.degree + 1 {
                let wide = self.knot(j + k - r) - self.knot(j + k - self.degree);
                if !is_finite(wide) {
                    return false;
                }
            }
        }
        true
    }
}

// One step of the recurrence.
#[tactic(auto, unfolding(crate::specs::Spline::blend_of))]
fn step(x: f64, lo: f64, hi: f64, a: f64, b: f64) -> f64
    ensures { result ≡ blend_of x lo hi a b }
{
    let share = alpha(x - lo, hi - lo);
    (1.0 - share) * a + share * b
}

// The quotient, with 0/0 taken as 0.
fn alpha(from: f64, wide: f64) -> f64
    ensures { result ≡ alpha_of from wide }
{
    // Kept: two tests, since one by && is compiled to a blend in the chain of the recurrence: tried and slower.
    if from == 0.0 {
        if wide == 0.0 {
            return 0.0;
        }
        return from / wide;
    }
    from / wide
}
