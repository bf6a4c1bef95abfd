// Points by exact sums. The start and the step are each in two parts that have few digits: upper parts and lower parts are added up without a rounding, and
// upper and lower together are rounded once, as a fused point is.
ghost use Rattle.std.specs.Prelude.{◌≡◌, true, length};
ghost use Rattle.std.specs.Float.{binary64};
ghost use Rattle.std.specs.Float.Ieee.{add};
ghost use Rattle.exact.specs.Doubles.{nought};
ghost use Rattle.points.specs.Points.{points};
ghost use Rattle.points.specs.Grid.{Stepped, OnGrid, StandsFor, headed};

use std::num::nearest_u64_to_f64;

// Each point from the one before: `high` is a multiple of 2^-51 below 4, `low` one of 2^-88 below 2^-35.
pub(crate) fn lay_sums(part: &mut [f64], x: f64, dx: f64)
    requires { OnGrid (length part.old) x dx }
    ensures { part.new ≡ points (length part.old) 0 x dx }
{
    let step_high = dx + 3.0 - 3.0;
    let step_low = dx - step_high;
    let mut high = x + 3.0 - 3.0;
    let mut low = x - high;
    for p in part.iter_mut() {
        *p = high + low;
        high += step_high;
        low += step_low;
    }
}

// The first point, where there is one. It is x, and +0 where x is either zero.
pub(crate) fn put_first(part: &mut [f64], x: f64)
    ensures { part.new ≡ headed (add binary64 x nought) part.old }
{
    if !part.is_empty() {
        part[0] = x + 0.0;
    }
}

// Whether the sums for n points are not rounded: few points, a step between 2^-30 and 3/4, a start on the grid, and a way of at most 2.
pub(crate) fn on_grid(n: usize, x: f64, dx: f64) -> bool
    ensures { result ≡ true → OnGrid n x dx }
{
    n <= 65536
        && dx > 9.313225746154785e-10
        && dx < 0.75
        && nearest_u64_to_f64(n as u64) * dx < 2.0
        && is_stepped(x)
}

// Whether x is 0, or between 2^-36 and 3/4 in size. What is above 2^-36 has no digit below 2^-88.
fn is_stepped(x: f64) -> bool
    ensures { result ≡ true → Stepped x }
{
    x < 0.75 && x > -0.75 && (x > 1.4551915228366852e-11 || x < -1.4551915228366852e-11 || x == 0.0)
}

// Where to start the sums. A start below 2^-36 that is not 0 has digits too low for the grid. It is set to the nearest multiple of 2^-86, and where that is
// not it, half a step of that back towards it: an odd multiple of 2^-87. All points but the first are the same from there: each sum is far above both, and
// no number that a sum could be rounded at lies between the two.
pub(crate) fn start(x: f64) -> f64
    ensures { StandsFor x result }
{
    if x < 1.4551915228366852e-11 && x > -1.4551915228366852e-11 && x != 0.0 {
        let near = x + 8.731149137020111e-11 - 8.731149137020111e-11;
        if near < x {
            near + 6.462348535570529e-27
        } else if near > x {
            near - 6.462348535570529e-27
        } else {
            near
        }
    } else {
        x
    }
}
