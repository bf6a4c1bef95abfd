// A spline's values at many points, and whether all points are fine.
ghost use Rattle.std.specs.Prelude.{◌≡◌, ◌<◌, ◌≤◌, true, map};
ghost use Rattle.std.specs.Float.Ieee.{le};
ghost use Rattle.spline.specs.Spline.{knot_at, in_domain, span_at};
ghost use Rattle.spline.specs.Value.{spline_at, value_in, AlwaysFine};
ghost use Rattle.spline.specs.Walk.{Tame};

use super::row::Spline;

// Whether the row alone shows that no point meets 8: all its numbers are below 2^1000 in size, and its knots do not fall.
pub fn always_fine(row: &[f64]) -> bool
    ensures { result ≡ true → AlwaysFine row.now }
{
    let Some(spline) = Spline::read(row) else {
        return true;
    };
    spline.is_tame()
}

// Each point becomes the value at it.
pub fn over(part: &mut [f64], row: &[f64])
    ensures { part.new ≡ map (value_in row.now) part.old }
{
    match Spline::read(row) {
        Some(spline) => spline.over(part),
        None => part.fill(0.0),
    }
}

impl Spline<'_> {
    fn over(&self, part: &mut [f64])
        ensures { part.new ≡ map (spline_at self.now.row.now self.now.degree self.now.controls) part.old }
    {
        if self.is_tame() {
            self.walk(part);
        } else {
            self.value_each(part);
        }
    }

    // Where no knot falls, the span of a point is searched from that of the point before it.
    fn walk(&self, part: &mut [f64])
        requires { Tame self.now.row.now self.now.degree self.now.controls }
        ensures { part.new ≡ map (spline_at self.now.row.now self.now.degree self.now.controls) part.old }
    {
        let mut k = self.degree;
        for x in part.iter_mut() {
            if self.in_domain(*x) {
                k = self.span_from(k, *x);
                *x = self.de_boor(k, *x);
            } else {
                *x = 0.0;
            }
        }
    }

    // From a span on, if that starts at or below x; else from the first.
    fn span_from(&self, last: usize, x: f64) -> usize
        requires tame { Tame self.now.row.now self.now.degree self.now.controls }
        requires p_le_last { (self.now.degree ≤ last)
            × (last < self.now.controls)
            × (in_domain self.now.row.now self.now.degree self.now.controls x ≡ true) }
        ensures value { result ≡ span_at self.now.row.now self.now.degree self.now.controls x }
        ensures lower_bound { (self.now.degree ≤ result) × (result < self.now.controls) }
    {
        if self.knot(last) <= x {
            return self.span_up(last, x);
        }
        self.span_up(self.degree, x)
    }

    fn span_up(&self, from: usize, x: f64) -> usize
        requires tame { Tame self.now.row.now self.now.degree self.now.controls }
        requires p_le_from { (self.now.degree ≤ from)
            × (from < self.now.controls)
            × (le (knot_at self.now.row.now from) x ≡ true) }
        ensures value { result ≡ span_at self.now.row.now self.now.degree self.now.controls x }
        ensures lower_bound { (self.now.degree ≤ result) × (result < self.now.controls) }
    {
        for k in from..self.controls - 1 {
            if x < self.knot(k + 1) {
                return k;
            }
        }
        self.controls - 1
    }

    // Each point's span is searched anew.
    fn value_each(&self, part: &mut [f64])
        ensures { part.new ≡ map (spline_at self.now.row.now self.now.degree self.now.controls) part.old }
    {
        for x in part.iter_mut() {
            *x = self.value(*x);
        }
    }
}
