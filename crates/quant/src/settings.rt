// The settings of a sampling call: a rate, 1/rate, a delay and an align level that fit, or refusal 1.
ghost use Rattle.std.specs.Prelude.{◌≡◌};
ghost use Rattle.quant.specs.Settings.{is_rate, is_level, is_tolerance, fitting_of};

use super::quantity::{Frequency, Time};
use ieee::finite::is_finite;

#[derive(Clone, Copy, Debug, PartialEq)]
pub struct Settings {
    pub rate: Frequency,
    pub dt: Time,
    pub delay: Time,
    pub level: i32,
}

// None where one of them does not fit. `fitting_answer` says which refusal.
pub fn set_up(rate: Frequency, delay: Time, level: i32) -> Option<Settings>
    ensures { result ≡ fitting_of rate delay level }
{
    let dt = rate.dt();
    if is_rate(rate.0) && is_finite(dt.0) && is_finite(delay.0) && is_level(level) {
        Some(Settings {
            rate,
            dt,
            delay,
            level,
        })
    } else {
        None
    }
}

// A tolerance of amplitude or time that fits, else refusal 1.
pub fn is_tolerance(x: f64) -> bool
    ensures { result ≡ is_tolerance x }
{
    is_finite(x) && 0.0 <= x
}

fn is_rate(x: f64) -> bool
    ensures { result ≡ is_rate x }
{
    is_finite(x) && 0.0 < x
}

fn is_level(level: i32) -> bool
    ensures { result ≡ is_level level }
{
    (-20..=20).contains(&level)
}
