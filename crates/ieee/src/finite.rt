// isFinite of IEEE 754-2019, 5.7.2.
ghost use Rattle.std.specs.Prelude.{◌≡◌};
ghost use Rattle.ieee.specs.Finite.{is_finite};

// Whether x is neither an infinity nor a NaN: it lies between the infinities.
pub fn is_finite(x: f64) -> bool
    ensures { result ≡ is_finite x }
{
    f64::NEG_INFINITY < x && x < f64::INFINITY
}
