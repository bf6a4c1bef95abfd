// One row takes only the I part: the loops of `plateau` and `envelope` without the second row.
// Kept: called for each of two rows, these would turn the carrier twice; a trait over one row or two would be longer than they are.
ghost use Rattle.std.specs.Prelude.{◌≡◌, length};
ghost use Rattle.mix.specs.Plateau.{carried, real};
ghost use Rattle.mix.specs.Envelope.{shaped_by};

use super::envelope::{point, wave};
use quant::complex::Complex;

pub(crate) fn plateau_row(i: &mut [f64], carrier: Complex, rotation: Complex)
    ensures { i.new ≡ carried real carrier rotation i.old }
{
    let mut z = carrier;
    for x in i {
        *x += z.re;
        z = z.mul(rotation);
    }
}

pub(crate) fn envelope_row(
    i: &mut [f64],
    points: &[f64],
    amp: Complex,
    drag: Complex,
    carrier: Complex,
    rotation: Complex,
)
    requires { length i.old ≡ length points.now }
    ensures { i.new ≡ shaped_by real amp drag rotation points.now carrier i.old }
{
    let mut z = carrier;
    let mut left = 0.0;
    let mut here = point(points, 0);
    for k in 0..i.len() {
        let right = point(points, k + 1);
        i[k] += wave(z, amp, drag, left, here, right).re;
        z = z.mul(rotation);
        left = here;
        here = right;
    }
}
