// A spline's value at a point, and whether a step on the way to it is not finite.
ghost use Rattle.std.specs.Prelude.{◌≡◌, ◌<◌, ◌≤◌};
ghost use Rattle.spline.specs.Spline.{in_domain, span_at};
ghost use Rattle.spline.specs.Value.{spline_at, spline_fine, value_in, fine_in};

use super::row::Spline;
use ieee::finite::is_finite;

// Of a row of 72 numbers. One that tells no spline's sizes, or of another length, is 0 everywhere.
pub fn value(row: &[f64], x: f64) -> f64
    ensures { result ≡ value_in row.now x }
{
    let Some(spline) = Spline::read(row) else {
        return 0.0;
    };
    spline.value(x)
}

// Whether no step meets 8.
pub fn is_fine(row: &[f64], x: f64) -> bool
    ensures { result ≡ fine_in row.now x }
{
    let Some(spline) = Spline::read(row) else {
        return true;
    };
    spline.is_fine(x)
}

impl Spline<'_> {
    pub(crate) fn value(&self, x: f64) -> f64
        ensures { result ≡ spline_at self.now.row.now self.now.degree self.now.controls x }
    {
        if self.in_domain(x) {
            self.de_boor(self.span(x), x)
        } else {
            0.0
        }
    }

    fn is_fine(&self, x: f64) -> bool
        ensures { result ≡ spline_fine self.now.row.now self.now.degree self.now.controls x }
    {
        if self.in_domain(x) {
            let k = self.span(x);
            return self.all_wide(k) && is_finite(self.de_boor(k, x));
        }
        true
    }

    #[tactic(auto, unfolding(crate::specs::Spline::in_domain))]
    pub(crate) fn in_domain(&self, x: f64) -> bool
        ensures { result ≡ in_domain self.now.row.now self.now.degree self.now.controls x }
    {
        self.knot(self.degree) <= x && x <= self.knot(self.controls)
    }

    // The largest k of degree..controls-1 with t[k] <= x, searched from above.
    fn span(&self, x: f64) -> usize
        ensures value { result ≡ span_at self.now.row.now self.now.degree self.now.controls x }
        ensures lower_bound { (self.now.degree ≤ result) × (result < self.now.controls) }
    {
        for k in (self.degree + 1..self.controls).rev() {
            if self.knot(k) <= x {
                return k;
            }
        }
        self.degree
    }
}
