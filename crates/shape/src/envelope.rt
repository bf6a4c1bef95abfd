// An envelope, worked out into a lent scratch. The Rust's `get_envelope`.
ghost use Rattle.std.specs.Prelude.{◌≡◌, length};
ghost use Rattle.shape.specs.Parts.{parted_of};
ghost use Rattle.shape.specs.Envelope.{least, limit_of, enveloped_of, scratch_after, filled_of, scratch_filled, finite_points, steps_fine, fine_points, Fitting};

use super::parts::{Parts, lay_out};
use super::segment::{all_fine, points_finite, sample};
use pulse::envelope::Shape;
use quant::quantity::{Frequency, Time};
use quant::refusal::Refusal;
use spline::over::always_fine;

// The points of the envelope, from the scratch's first sample on. The scratch is no shorter than the row,
// and a row has at most 65,536 samples; a room over either is cut to it.
pub fn envelope(
    shape: Shape,
    numbers: &[f64],
    width: Time,
    plateau: Time,
    offset: f64,
    rate: Frequency,
    dt: Time,
    room: usize,
    scratch: &mut [f64],
) -> Result<usize, Refusal>
    ensures value { result ≡ enveloped_of shape numbers.now (parted_of width.0 plateau.0 offset rate.0 dt.0 (limit_of room (length scratch.old))) }
    ensures scratch_after { scratch.new ≡ scratch_after shape numbers.now (parted_of width.0 plateau.0 offset rate.0 dt.0 (limit_of room (length scratch.old))) scratch.old }
{
    let limit = room.min(scratch.len()).min(65536);
    let p = lay_out(width, plateau, offset, rate, dt, limit)?;
    fill(shape, numbers, p, scratch)
}

// How many points the envelope has, or its refusal: what `envelope` answers with a scratch no shorter than the room.
pub fn measure(
    shape: Shape,
    numbers: &[f64],
    width: Time,
    plateau: Time,
    offset: f64,
    rate: Frequency,
    dt: Time,
    room: usize,
) -> Result<usize, Refusal>
    ensures { result ≡ enveloped_of shape numbers.now (parted_of width.0 plateau.0 offset rate.0 dt.0 (least room 65536)) }
{
    let p = lay_out(width, plateau, offset, rate, dt, room.min(65536))?;
    count(shape, numbers, p)
}

fn count(shape: Shape, numbers: &[f64], p: Parts) -> Result<usize, Refusal>
    requires { Fitting p 65536 }
    ensures { result ≡ filled_of shape numbers.now p }
{
    if fine_points(shape, numbers, p) {
        Ok(p.length)
    } else {
        Err(Refusal::NotFinite)
    }
}

// All points are judged before the first is stored.
fn fill(shape: Shape, numbers: &[f64], p: Parts, scratch: &mut [f64]) -> Result<usize, Refusal>
    requires { Fitting p (length scratch.old) × Fitting p 65536 }
    ensures value { result ≡ filled_of shape numbers.now p }
    ensures scratch_after { scratch.new ≡ scratch_filled shape numbers.now p scratch.old }
{
    if !fine_points(shape, numbers, p) {
        return Err(Refusal::NotFinite);
    }
    let Parts {
        x0,
        dx,
        x2,
        start,
        end,
        length,
    } = p;
    sample(shape, numbers, &mut scratch[..start], x0, dx);
    scratch[start..end].fill(1.0);
    sample(shape, numbers, &mut scratch[end..length], x2, dx);
    Ok(length)
}

fn fine_points(shape: Shape, numbers: &[f64], p: Parts) -> bool
    requires { Fitting p 65536 }
    ensures { result ≡ fine_points shape numbers.now p }
{
    finite_points(p)
        && match shape {
            Shape::Plain | Shape::Hann => true,
            Shape::Spline => steps_fine(numbers, p),
        }
}

// A spline whose numbers show that no point meets 8 is not judged point by point.
fn steps_fine(numbers: &[f64], p: Parts) -> bool
    requires { Fitting p 65536 }
    ensures { result ≡ steps_fine numbers.now p }
{
    always_fine(numbers)
        || (all_fine(numbers, p.x0, p.dx, p.start)
            && all_fine(numbers, p.x2, p.dx, p.length - p.end))
}

#[tactic(auto, unfolding(crate::specs::Envelope::finite_points))]
fn finite_points(p: Parts) -> bool
    requires { Fitting p 65536 }
    ensures { result ≡ finite_points p }
{
    points_finite(p.x0, p.dx, p.start) && points_finite(p.x2, p.dx, p.length - p.end)
}
