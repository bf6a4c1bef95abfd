// A number cut off at its point and cast to an index, as the Rust's `num::cast` to `usize` does.
ghost use Rattle.std.specs.Prelude.{◌≡◌};
ghost use Rattle.ieee.specs.Cut.{cut_of};

use std::num::truncating_f64_to_u64;

// An index, a number below or above every index, or no number.
// Kept: the four are on a par, so an Option or a Result of an index would be no plainer.
#[derive(Clone, Copy)]
pub enum Cut {
    Index(usize),
    Below,
    Above,
    NotANumber,
}

// The whole part of x where that is an index, else on which side of the indices it lies. The two
// ends are -1 and 2^64.
pub fn cut_off(x: f64) -> Cut
    ensures { result ≡ cut_of x }
{
    if x.is_nan() {
        Cut::NotANumber
    } else if x > -1.0 {
        if x < 18446744073709551616.0 {
            Cut::Index(truncating_f64_to_u64(x) as usize)
        } else {
            Cut::Above
        }
    } else {
        Cut::Below
    }
}
