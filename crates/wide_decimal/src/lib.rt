// A decimal of any length, rounded once to the nearest double. What stands before the point is a whole number in digits of 32 bits; what stands
// behind it is found from its last figure on, by dividing by ten, in units of 2^-1088, with the last bit set where anything was lost: the
// divisors are even, so that it survives the next division, and it decides every tie.
#![tactic(auto)]

ghost use Rattle.std.specs.Prelude.{◌≡◌, length};
ghost use Rattle.wide_decimal.specs.Figures.{without};
ghost use Rattle.wide_decimal.specs.Placed.{nearest_of};
ghost use Rattle.wide_decimal.specs.Told.{Room, Outcome};

use figures::count;
use parts::{before, behind, lower, raise};
use round::{infinite, packed};

mod figures;
mod limbs;
mod parts;
mod round;

// The figures of a text but for the byte at `point`: the first `whole` of them stand before the decimal point, with zeros behind them where there are
// fewer; behind it stand `zeros` zeros and the other figures. A byte that is no figure counts as 0. A few digits tell nearly always.
pub fn nearest(minus: bool, text: &[u8], point: usize, whole: usize, zeros: usize) -> f64
    ensures { result ≡ nearest_of minus (without point text.now) whole zeros }
{
    let mut some = [0u32; 4];
    let mut few = [0u32; 8];
    match within(minus, text, point, whole, zeros, &mut some, &mut few) {
        Ok(x) => x,
        Err(_) => at_length(minus, text, point, whole, zeros),
    }
}

// With room for every double. All digits are there: what does not fit is infinite.
fn at_length(minus: bool, text: &[u8], point: usize, whole: usize, zeros: usize) -> f64
    ensures { result ≡ nearest_of minus (without point text.now) whole zeros }
{
    let mut high = [0u32; 33];
    let mut low = [0u32; 34];
    within(minus, text, point, whole, zeros, &mut high, &mut low).unwrap_or(infinite(minus))
}

#[derive(Clone, Copy, Debug, PartialEq, Eq)]
pub enum Short {
    // The digits before the point are too few,
    Spilled,
    // or those behind it.
    Thin,
}

// With so many digits before the point and behind it, all 0.
fn within(
    minus: bool,
    text: &[u8],
    point: usize,
    whole: usize,
    zeros: usize,
    high: &mut [u32],
    low: &mut [u32],
) -> Result<f64, Short>
    requires { Room high.old low.old }
    ensures { Outcome minus (without point text.now) whole zeros (length high.old) (length low.old) result }
{
    let first = whole.min(count(text, point));
    if !before(high, text, point, first) || !raise(high, whole - first) {
        return Err(Short::Spilled);
    }
    behind(low, text, point, first);
    lower(low, zeros);
    packed(minus, high, low).ok_or(Short::Thin)
}
