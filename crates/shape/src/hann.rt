// The value of Hann's shape. The Rust's `Hann`.
ghost use Rattle.std.specs.Prelude.{◌≡◌};
ghost use Rattle.shape.specs.Hann.{hann_of, hann_wrapped};

use trig::{cosine, cosine_wrapped};

// (1 + cos(TAU*x))/2, which is 1 at 0 and 0 at -1/2 and 1/2. The Rust's `midpoint` is this sum and quotient for numbers of this size.
#[tactic(auto, unfolding(crate::specs::Hann::hann_of))]
pub fn hann(x: f64) -> f64
    ensures { result ≡ hann_of x }
{
    (1.0 + cosine(6.283185307179586 * x)) / 2.0
}

// The same where x is at most 7/8 in size, and nothing is divided.
#[tactic(auto, unfolding(crate::specs::Hann::hann_wrapped))]
pub(crate) fn hann_wrapped(x: f64) -> f64
    ensures { result ≡ hann_wrapped x }
{
    (1.0 + cosine_wrapped(6.283185307179586 * x)) / 2.0
}
