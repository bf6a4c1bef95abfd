// Two pulses: whether they fall together, their sum, and a pulse times a factor. The Rust's `approx_eq!` and `PulseAmplitude`.
ghost use Rattle.std.specs.Prelude.{◌≡◌};
ghost use Rattle.merge.specs.Sum.{near_to, plus_p, scaled_p};

use pulse::list::Pulse;
use quant::quantity::{Quantity, Time};

// Equal times, or times within the tolerance of each other. A difference that overflows is over the tolerance.
pub fn is_near(a: Time, b: Time, tolerance: Time) -> bool
    ensures { result ≡ near_to tolerance.0 a.0 b.0 }
{
    let apart = a.sub(b);
    a.0 == b.0 || (-tolerance.0 <= apart.0 && apart.0 <= tolerance.0)
}

// The kept pulse with another added: its time stays.
pub fn plus(kept: Pulse, p: Pulse) -> Pulse
    ensures { result ≡ plus_p kept p }
{
    Pulse {
        amp: kept.amp.add(p.amp),
        drag: kept.drag.add(p.drag),
        ..kept
    }
}

pub fn scaled(p: Pulse, factor: f64) -> Pulse
    ensures { result ≡ scaled_p factor p }
{
    Pulse {
        amp: p.amp.scale(factor),
        drag: p.drag.scale(factor),
        ..p
    }
}
