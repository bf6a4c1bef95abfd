// What a pulse weighs: its amplitude and its drag, as complex numbers. The Rust's `PulseAmplitude`, and `ListBuilder::push`.
ghost use Rattle.std.specs.Prelude.{◌≡◌, Some};
ghost use Rattle.pulse.specs.Weight.{negligible, finite_c, weighed, weighed_of};

use ieee::finite::is_finite;
use quant::complex::Complex;
use quant::phaser::phaser;
use quant::quantity::{Amplitude, Phase};

// The drag is not yet multiplied by the sample rate.
#[derive(Clone, Copy)]
pub struct Weight {
    pub amp: Complex,
    pub drag: Complex,
}

// An amplitude that stores nothing.
pub fn is_negligible(amplitude: Amplitude, tolerance: Amplitude) -> bool
    ensures { result ≡ negligible amplitude.0 tolerance.0 }
{
    amplitude.0 == 0.0 || (-tolerance.0 <= amplitude.0 && amplitude.0 <= tolerance.0)
}

#[tactic(auto, unfolding(crate::specs::Weight::weighed))]
pub fn weigh(amplitude: Amplitude, phase: Phase, drag: f64) -> Option<Weight>
    ensures { result ≡ weighed_of amplitude.0 phase.0 drag }
{
    weigh_at(amplitude, phaser(phase)?, drag)
}

#[tactic(auto, unfolding(crate::specs::Weight::weighed))]
fn weigh_at(amplitude: Amplitude, u: Complex, drag: f64) -> Option<Weight>
    ensures { result ≡ weighed amplitude.0 (Some u) drag }
{
    let amp = u.scale(amplitude.0);
    let drag = amp.mul_i().scale(drag);
    if is_finite_pair(amp) && is_finite_pair(drag) {
        Some(Weight { amp, drag })
    } else {
        None
    }
}

fn is_finite_pair(z: Complex) -> bool
    ensures { result ≡ finite_c z }
{
    is_finite(z.re) && is_finite(z.im)
}
