// The points of one part of an envelope: i*dx + x, rounded once. The Rust's `sample_array`, without its values.
#![tactic(auto)]

ghost use Rattle.std.specs.Prelude.{◌≡◌, length};
ghost use Rattle.points.specs.Points.{point_at, points};

use quick_fma::mul_add;
use std::num::nearest_u64_to_f64;
use sums::{lay_sums, on_grid, put_first, start};

mod sums;

pub fn point(x: f64, dx: f64, i: usize) -> f64
    ensures { result ≡ point_at x dx i }
{
    mul_add(nearest_u64_to_f64(i as u64), dx, x)
}

// A part becomes its points: by exact sums where the steps are on a grid, else each by itself.
pub fn lay(part: &mut [f64], x: f64, dx: f64)
    ensures { part.new ≡ points (length part.old) 0 x dx }
{
    let from = start(x);
    if on_grid(part.len(), from, dx) {
        lay_sums(part, from, dx);
        put_first(part, x);
    } else {
        lay_each(part, x, dx);
    }
}

fn lay_each(part: &mut [f64], x: f64, dx: f64)
    ensures { part.new ≡ points (length part.old) 0 x dx }
{
    for (i, p) in part.iter_mut().enumerate() {
        *p = point(x, dx, i);
    }
}
