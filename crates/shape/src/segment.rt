// The values of one part of an envelope. The Rust's `sample_array`.
ghost use Rattle.std.specs.Prelude.{◌≡◌, ℕ, ◌≤◌, true, false, map, length};
ghost use Rattle.exact.specs.Value.{Units, AtMost};
ghost use Rattle.rows.specs.Rows.{all_finite};
ghost use Rattle.points.specs.Points.{points};
ghost use Rattle.pulse.specs.declared.envelope.Shape.TheVariants.{Spline};
ghost use Rattle.spline.specs.Value.{value_in};
ghost use Rattle.shape.specs.Hann.{hann_of};
ghost use Rattle.shape.specs.Segment.{values, all_fine, EndsNear};

use super::hann::{hann, hann_wrapped};
use ieee::finite::is_finite;
use points::{lay, point};
use pulse::envelope::Shape;
use spline::over::over;
use spline::value::is_fine;

// 2^100.
const MODERATE: f64 = 1.2676506002282294e30;

const NEAR: f64 = 0.875;

// Whether the first `count` points from x on are finite. So they are where x and dx are no larger than 2^100. Else they lie between the first and the last, and
// these two are judged.
pub(crate) fn points_finite(x: f64, dx: f64, count: usize) -> bool
    requires { count ≤ 65536 }
    ensures { result ≡ all_finite (points count 0 x dx) }
{
    count == 0
        || (is_within(x, MODERATE) && is_within(dx, MODERATE))
        || (is_finite(point(x, dx, 0)) && is_finite(point(x, dx, count - 1)))
}

// Whether z is between -bound and bound, which are m units.
fn is_within(z: f64, bound: f64) -> bool
    ensures { result ≡ true → (m : ℕ) → Units bound false m → AtMost m z }
{
    -bound < z && z < bound
}

// Whether no step at the first `count` points from x on meets 8, point by point.
pub(crate) fn all_fine(numbers: &[f64], x: f64, dx: f64, count: usize) -> bool
    requires { count ≤ 65536 }
    ensures { result ≡ all_fine Spline numbers.now (points count 0 x dx) }
{
    for i in 0..count {
        if !is_fine(numbers, point(x, dx, i)) {
            return false;
        }
    }
    true
}

// The values at the points from x on, for every sample of a part.
pub(crate) fn sample(shape: Shape, numbers: &[f64], part: &mut [f64], x: f64, dx: f64)
    ensures { part.new ≡ values shape numbers.now (length part.old) 0 x dx }
{
    match shape {
        Shape::Plain => part.fill(1.0),
        Shape::Hann => sample_hann(part, x, dx),
        Shape::Spline => sample_spline(numbers, part, x, dx),
    }
}

// First the points, then their values.
fn sample_hann(part: &mut [f64], x: f64, dx: f64)
    ensures { part.new ≡ map hann_of (points (length part.old) 0 x dx) }
{
    lay(part, x, dx);
    if ends_near(part) {
        // No turn of this loop waits for a test, so that several can be worked out at once.
        for y in part.iter_mut() {
            *y = hann_wrapped(*y);
        }
    } else {
        for y in part.iter_mut() {
            *y = hann(*y);
        }
    }
}

fn sample_spline(numbers: &[f64], part: &mut [f64], x: f64, dx: f64)
    ensures { part.new ≡ map (value_in numbers.now) (points (length part.old) 0 x dx) }
{
    lay(part, x, dx);
    over(part, numbers);
}

// Whether the first and the last of points are at most 7/8 in size. All points lie between them.
fn ends_near(part: &[f64]) -> bool
    ensures { result ≡ true → EndsNear part.now }
{
    let n = part.len();
    if n == 0 || 65536 < n {
        return false;
    }
    is_within(part[0], NEAR) && is_within(part[n - 1], NEAR)
}
