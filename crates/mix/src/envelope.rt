// An envelope on two rows: the carrier times the envelope and its slope. The Rust's `mix_add_envelope`.
ghost use Rattle.std.specs.Prelude.{◌≡◌, length, get_or};
ghost use Rattle.exact.specs.Doubles.{nought};
ghost use Rattle.mix.specs.Plateau.{real, imaginary};
ghost use Rattle.mix.specs.Envelope.{wave_of, shaped_by};

use quant::complex::Complex;

// The carrier's real part goes a sample ahead of its imaginary part. Two parts that are turned at once the compiler keeps in one register, and
// taking them out of it lengthens the chain from sample to sample.
pub(crate) fn envelope_rows(
    i: &mut [f64],
    q: &mut [f64],
    points: &[f64],
    amp: Complex,
    drag: Complex,
    carrier: Complex,
    rotation: Complex,
)
    requires { (length i.old ≡ length points.now) × (length q.old ≡ length points.now) }
    ensures i_after { i.new ≡ shaped_by real amp drag rotation points.now carrier i.old }
    ensures q_after { q.new ≡ shaped_by imaginary amp drag rotation points.now carrier q.old }
{
    if i.is_empty() {
        return;
    }
    let mut left = point(points, 0);
    let mut here = point(points, 1);
    let first = wave(carrier, amp, drag, 0.0, left, here);
    i[0] += first.re;
    q[0] += first.im;
    let mut last = carrier;
    let second = carrier.mul(rotation);
    let mut re = second.re;
    for k in 1..i.len() {
        let turned = last.mul(rotation);
        let z = Complex { re, im: turned.im };
        let next = z.mul(rotation);
        re = next.re;
        let right = point(points, k + 1);
        let w = wave(z, amp, drag, left, here, right);
        i[k] += w.re;
        q[k] += w.im;
        last = z;
        left = here;
        here = right;
    }
}

// Point k, and 0.0 beyond the end.
pub(crate) fn point(points: &[f64], k: usize) -> f64
    ensures { result ≡ get_or points.now k nought }
{
    points.get(k).copied().unwrap_or(0.0)
}

// The carrier z times the envelope and its slope at the point `here`.
pub(crate) fn wave(
    z: Complex,
    amp: Complex,
    drag: Complex,
    left: f64,
    here: f64,
    right: f64,
) -> Complex
    ensures { result ≡ wave_of z amp drag left here right }
{
    let slope = (right - left) / 2.0;
    z.mul(amp.scale(here).add(drag.scale(slope)))
}
