// What stands before the point, exactly, and what stands behind it, cut: nine figures at a time.
ghost use Rattle.std.specs.Prelude.{◌≡◌, ◌-◌, ◌*◌, ◌^◌, ◌≤◌, ◌<◌, length, take, drop};
ghost use Rattle.wide_decimal.specs.Figures.{worth, without};
ghost use Rattle.wide_decimal.specs.Limbs.{value, weight, Held};
ghost use Rattle.wide_decimal.specs.Near.{Near};

use super::figures::{count, group, ten_to};
use super::limbs::{cut, times};

// The first figures as a whole number, into zeros.
pub(crate) fn before(high: &mut [u32], text: &[u8], point: usize, first: usize) -> bool
    requires { (value high.old ≡ 0) × (first ≤ length (without point text.now)) }
    ensures { Held result (value high.new) (worth (take first (without point text.now))) (weight (length high.old)) }
{
    for i in (0..first).step_by(9) {
        let n = (first - i).min(9);
        if times(high, ten_to(n), group(text, point, i, n)) != 0 {
            return false;
        }
    }
    true
}

// So many zeros behind it. Beyond 10^400 only nothing fits.
pub(crate) fn raise(high: &mut [u32], zeros: usize) -> bool
    requires { length high.old ≤ 33 }
    ensures { Held result (value high.new) (value high.old * 10 ^ zeros) (weight (length high.old)) }
{
    let most = zeros.min(400);
    for i in (0..most).step_by(9) {
        if times(high, ten_to((most - i).min(9)), 0) != 0 {
            return false;
        }
    }
    true
}

// The figures from the first on behind a point, the last ones first, into zeros.
pub(crate) fn behind(low: &mut [u32], text: &[u8], point: usize, first: usize)
    requires { (value low.old ≡ 0) × (0 < length low.old) × (first ≤ length (without point text.now)) }
    ensures { Near (value low.new) (10 ^ (length (without point text.now) - first)) (worth (drop first (without point text.now)) * weight (length low.old)) }
{
    let mut i = count(text, point);
    // Kept: a walk down in nines whose last step is the short one, which no range by steps is.
    while first < i {
        let n = (i - first).min(9);
        i -= n;
        cut(low, ten_to(n), group(text, point, i, n));
    }
}

// So many zeros between the point and them. Beyond 10^400 only the last bit is left.
pub(crate) fn lower(low: &mut [u32], zeros: usize)
    requires { (0 < length low.old) × (length low.old ≤ 34) }
    ensures { Near (value low.new) (10 ^ zeros) (value low.old) }
{
    let most = zeros.min(400);
    for i in (0..most).step_by(9) {
        cut(low, ten_to((most - i).min(9)), 0);
    }
}
