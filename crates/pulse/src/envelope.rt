// The envelope of a pulse. The Rust's `Envelope::new`.
ghost use Rattle.std.specs.Prelude.{◌≡◌};
ghost use Rattle.pulse.specs.Envelope.{is_shaped, envelope_of};

use quant::quantity::{Quantity, Time};

// `Plain`: no shape, a plateau only. `Spline`: its 72 numbers stand beside it, since an enum holds no array.
#[derive(Clone, Copy, Debug, PartialEq, Eq)]
pub enum Shape {
    Plain,
    Hann,
    Spline,
}

impl Shape {
    pub fn is_shaped(self) -> bool
        ensures { result ≡ is_shaped self }
    {
        matches!(self, Shape::Hann | Shape::Spline)
    }
}

#[derive(Clone, Copy)]
pub struct Envelope {
    pub shape: Shape,
    pub width: Time,
    pub plateau: Time,
}

impl Envelope {
    // No shape adds the width to the plateau; a shape of width 0 is none.
    #[tactic(auto, unfolding(crate::specs::Envelope::envelope_of))]
    pub fn new(shape: Shape, width: Time, plateau: Time) -> Envelope
        ensures { result ≡ envelope_of shape width.0 plateau.0 }
    {
        if !shape.is_shaped() {
            return Envelope {
                shape: Shape::Plain,
                width: Time(0.0),
                plateau: plateau.add(width),
            };
        }
        let shape = if width.0 == 0.0 { Shape::Plain } else { shape };
        Envelope {
            shape,
            width,
            plateau,
        }
    }
}
