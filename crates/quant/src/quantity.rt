// Time, frequency, phase and amplitude, kept apart, with the Rust's operations between them and no others; each rounds once. The Rust's src/quant.rs.
ghost use Rattle.std.specs.Prelude.{◌≡◌, Float};
ghost use Rattle.std.specs.Float.Ieee as Ieee;
ghost use Rattle.std.specs.Float.{binary64};
ghost use Rattle.exact.specs.Doubles.{one};

// A number with a unit. Two quantities of one kind are added and subtracted; a plain number scales them.
pub trait Quantity: Copy {
    ghost size: { Self → Float };

    fn of(x: f64) -> Self
        ensures { size result ≡ x };

    fn number(self) -> f64
        ensures { result ≡ size self };

    final fn add(self, rhs: Self) -> Self
        ensures { size result ≡ Ieee.add binary64 (size self) (size rhs) }
    {
        Self::of(self.number() + rhs.number())
    }

    final fn sub(self, rhs: Self) -> Self
        ensures { size result ≡ Ieee.sub binary64 (size self) (size rhs) }
    {
        Self::of(self.number() - rhs.number())
    }

    final fn neg(self) -> Self
        ensures { size result ≡ Ieee.neg (size self) }
    {
        Self::of(-self.number())
    }

    final fn mul(self, rhs: f64) -> Self
        ensures { size result ≡ Ieee.mul binary64 (size self) rhs }
    {
        Self::of(self.number() * rhs)
    }

    final fn div(self, rhs: f64) -> Self
        ensures { size result ≡ Ieee.div binary64 (size self) rhs }
    {
        Self::of(self.number() / rhs)
    }
}

// Seconds.
#[repr(C)]
#[derive(Clone, Copy, Debug, Default, PartialEq, PartialOrd)]
pub struct Time(pub f64);

// Turns a second.
#[repr(C)]
#[derive(Clone, Copy, Debug, Default, PartialEq, PartialOrd)]
pub struct Frequency(pub f64);

// Turns.
#[repr(C)]
#[derive(Clone, Copy, Debug, Default, PartialEq, PartialOrd)]
pub struct Phase(pub f64);

#[repr(C)]
#[derive(Clone, Copy, Debug, Default, PartialEq, PartialOrd)]
pub struct Amplitude(pub f64);

impl Quantity for Time {
    ghost size = { λ t. t.0 };

    fn of(x: f64) -> Time {
        Time(x)
    }

    fn number(self) -> f64 {
        self.0
    }
}

impl Quantity for Frequency {
    ghost size = { λ f. f.0 };

    fn of(x: f64) -> Frequency {
        Frequency(x)
    }

    fn number(self) -> f64 {
        self.0
    }
}

impl Quantity for Phase {
    ghost size = { λ p. p.0 };

    fn of(x: f64) -> Phase {
        Phase(x)
    }

    fn number(self) -> f64 {
        self.0
    }
}

impl Quantity for Amplitude {
    ghost size = { λ a. a.0 };

    fn of(x: f64) -> Amplitude {
        Amplitude(x)
    }

    fn number(self) -> f64 {
        self.0
    }
}

impl Time {
    pub fn mul_freq(self, rhs: Frequency) -> Phase
        ensures { result.0 ≡ Ieee.mul binary64 self.0 rhs.0 }
    {
        Phase(self.0 * rhs.0)
    }
}

impl Frequency {
    pub fn mul_time(self, rhs: Time) -> Phase
        ensures { result.0 ≡ Ieee.mul binary64 self.0 rhs.0 }
    {
        Phase(self.0 * rhs.0)
    }

    // From one sample to the next, at this rate.
    pub fn dt(self) -> Time
        ensures { result.0 ≡ Ieee.div binary64 one self.0 }
    {
        Time(1.0 / self.0)
    }
}
