// Splines whose steps cannot overflow.
ghost use Rattle.std.specs.Prelude.{◌≡◌, ℕ, ◌<◌, true, length, slice_index_or};
ghost use Rattle.std.specs.Float.{nan};
ghost use Rattle.spline.specs.Walk.{Tamed, Tame};

use super::check::not_falling;
use super::row::Spline;

impl Spline<'_> {
    // Whether all controls and knots are below 2^1000 in size, and no knot is below the one before it.
    pub(crate) fn is_tame(&self) -> bool
        ensures { result ≡ true → Tame self.now.row.now self.now.degree self.now.controls }
    {
        let controls = &self.row[2..2 + self.controls];
        let knots = &self.row[34..35 + self.controls + self.degree];
        all_tamed(controls) && all_tamed(knots) && not_falling(knots)
    }
}

fn all_tamed(numbers: &[f64]) -> bool
    ensures { result ≡ true → (i : ℕ) → i < length numbers.now → Tamed (slice_index_or numbers.now i nan) }
{
    numbers.iter().all(|z| is_tamed(*z))
}

// Whether z is between -2^1000 and 2^1000.
fn is_tamed(z: f64) -> bool
    ensures { result ≡ true → Tamed z }
{
    -1.0715086071862673e301 < z && z < 1.0715086071862673e301
}
