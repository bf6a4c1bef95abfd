// The phase at a pulse's start and the phase from one sample to the next, as complex numbers of size 1. The Rust's `phase0` and `dphase`.
ghost use Rattle.std.specs.Prelude.{◌≡◌};
ghost use Rattle.placing.specs.Phases.{turned_of, pairs_of};

use pulse::bin::Bin;
use quant::complex::Complex;
use quant::phaser::phaser;
use quant::quantity::{Phase, Quantity, Time};
use quant::settings::Settings;
use rows::all_finite;
use std::num::nearest_u64_to_f64;

// At the start, and from one sample to the next.
#[derive(Clone, Copy)]
pub struct Phases {
    pub start: Complex,
    pub step: Complex,
}

// None where a number worked out on the way is not finite: refusal 8.
pub(crate) fn turn(s: Settings, b: Bin, start: usize, offset: f64) -> Option<Phases>
    ensures { result ≡ turned_of s b start offset }
{
    let Settings { delay, dt, .. } = s;
    let Bin { global, local, .. } = b;
    let at = Time(nearest_u64_to_f64(start as u64) * dt.0);
    let since = at.sub(delay);
    let turned = global.mul_time(since);
    let slow = local.mul(offset);
    let late = slow.mul_time(dt);
    let phase0 = turned.add(late);
    let total = global.add(local);
    let dphase = total.mul_time(dt);
    let numbers = [
        at.0, since.0, turned.0, slow.0, late.0, phase0.0, total.0, dphase.0,
    ];
    if !all_finite(&numbers) {
        return None;
    }
    pairs(phase0, dphase)
}

fn pairs(phase0: Phase, dphase: Phase) -> Option<Phases>
    ensures { result ≡ pairs_of phase0.0 dphase.0 }
{
    let start = phaser(phase0)?;
    let step = phaser(dphase)?;
    Some(Phases { start, step })
}
