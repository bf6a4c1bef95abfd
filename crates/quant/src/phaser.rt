// The complex number of size 1 that a phase stands for. The Rust's `Phase::phaser`.
ghost use Rattle.std.specs.Prelude.{◌≡◌};
ghost use Rattle.quant.specs.Phaser.{radians_of, phased_of};

use super::complex::Complex;
use super::quantity::Phase;
use ieee::finite::is_finite;

// None where phase*TAU is not finite. `phased_answer` says which refusal.
pub fn phaser(phase: Phase) -> Option<Complex>
    ensures { result ≡ phased_of phase.0 }
{
    let x = radians(phase);
    if !is_finite(x) {
        return None;
    }
    let p = trig::both(x);
    Some(Complex {
        re: p.cos,
        im: p.sin,
    })
}

// A phase counts turns.
fn radians(phase: Phase) -> f64
    ensures { result ≡ radians_of phase.0 }
{
    phase.0 * 6.283185307179586
}
