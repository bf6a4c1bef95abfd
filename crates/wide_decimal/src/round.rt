// From both parts to the nearest double.
ghost use Rattle.std.specs.Prelude.{◌≡◌, ◌+◌, ◌*◌, ◌≤◌, length};
ghost use Rattle.std.specs.Float.{inf};
ghost use Rattle.wide_decimal.specs.Limbs.{value, weight};
ghost use Rattle.wide_decimal.specs.Told.{Told};

use super::limbs::{Front, top};
use fma::pack::nearest_double;

// The nearest double, or none where the digits behind the point are too few to tell.
// With all 34 digits behind the point, or 64 bits in all, the last bit decides.
pub(crate) fn packed(minus: bool, high: &[u32], low: &[u32]) -> Option<f64>
    requires { (length high.now ≤ 33) × (length low.now ≤ 34) }
    ensures { Told minus (value high.now * weight (length low.now) + value low.now) (length low.now) result }
{
    let Front { bits, lost } = top(top(Front { bits: 0, lost: 0 }, high), low);
    let hi = (bits >> 64) as u64;
    let lo = (bits & 0xffff_ffff_ffff_ffff) as u64;
    if hi == 0 && low.len() < 34 {
        return None;
    }
    let x = lost + 2208 - 32 * low.len() as u64;
    Some(nearest_double(minus, hi, lo, x as u16))
}

pub(crate) fn infinite(minus: bool) -> f64
    ensures { result ≡ inf minus }
{
    if minus { -f64::INFINITY } else { f64::INFINITY }
}
