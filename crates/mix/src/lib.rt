// One pulse added onto the rows of a channel, sample by sample, under a turning carrier. The Rust's `mix_add_plateau` and `mix_add_envelope`.
#![tactic(auto)]

ghost use Rattle.std.specs.Prelude.{◌≡◌, length};
ghost use Rattle.mix.specs.Part.{first_row, second_row};
ghost use Rattle.mix.specs.Plateau.{carried, real, imaginary};
ghost use Rattle.mix.specs.Envelope.{shaped_by};

mod envelope;
mod one_row;
mod part;
mod plateau;

use envelope::envelope_rows;
use one_row::{envelope_row, plateau_row};
use part::part_fits;
use plateau::plateau_rows;
use quant::complex::Complex;

// The carrier, which holds the amplitude already, onto `count` samples from `start` on. With one row only I is touched, with two both;
// where those samples do not lie within the rows, nothing changes.
pub fn add_plateau(
    rows: usize,
    i: &mut [f64],
    q: &mut [f64],
    start: usize,
    count: usize,
    carrier: Complex,
    rotation: Complex,
)
    ensures i_after { i.new ≡ first_row rows start count i.old q.old (carried real carrier rotation) }
    ensures q_after { q.new ≡ second_row rows start count i.old q.old (carried imaginary carrier rotation) }
{
    if !part_fits(rows, i.len(), q.len(), start, count) {
        return;
    }
    let end = start + count;
    if rows == 1 {
        plateau_row(&mut i[start..end], carrier, rotation);
    } else {
        plateau_rows(&mut i[start..end], &mut q[start..end], carrier, rotation);
    }
}

// The same under an envelope, a sample for each of its points. The drag is the pulse's times the rate.
pub fn add_envelope(
    rows: usize,
    i: &mut [f64],
    q: &mut [f64],
    start: usize,
    points: &[f64],
    amp: Complex,
    drag: Complex,
    carrier: Complex,
    rotation: Complex,
)
    ensures i_after { i.new ≡ first_row rows start (length points.now) i.old q.old (shaped_by real amp drag rotation points.now carrier) }
    ensures q_after { q.new ≡ second_row rows start (length points.now) i.old q.old (shaped_by imaginary amp drag rotation points.now carrier) }
{
    let count = points.len();
    if !part_fits(rows, i.len(), q.len(), start, count) {
        return;
    }
    let end = start + count;
    if rows == 1 {
        envelope_row(&mut i[start..end], points, amp, drag, carrier, rotation);
    } else {
        envelope_rows(
            &mut i[start..end],
            &mut q[start..end],
            points,
            amp,
            drag,
            carrier,
            rotation,
        );
    }
}
