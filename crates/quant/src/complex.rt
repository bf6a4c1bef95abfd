// A complex number: the carrier, an amplitude, a rotation. Each product and each sum of parts rounds once, in the Rust's order.
ghost use Rattle.std.specs.Prelude.{◌≡◌};
ghost use Rattle.quant.specs.Complex.{times_c, plus_c, scaled_c, turned_c};

#[derive(Clone, Copy, Debug, Default, PartialEq)]
pub struct Complex {
    pub re: f64,
    pub im: f64,
}

impl Complex {
    // (re re' - im im', re im' + im re'), self first.
    pub fn mul(self, rhs: Complex) -> Complex
        ensures { result ≡ times_c self rhs }
    {
        Complex {
            re: self.re * rhs.re - self.im * rhs.im,
            im: self.re * rhs.im + self.im * rhs.re,
        }
    }

    pub fn add(self, rhs: Complex) -> Complex
        ensures { result ≡ plus_c self rhs }
    {
        Complex {
            re: self.re + rhs.re,
            im: self.im + rhs.im,
        }
    }

    // Times a real number.
    pub fn scale(self, k: f64) -> Complex
        ensures { result ≡ scaled_c self k }
    {
        Complex {
            re: self.re * k,
            im: self.im * k,
        }
    }

    // Times i: the product with (0, 1), whose zeros have the signs that two products and one sum give.
    pub fn mul_i(self) -> Complex
        ensures { result ≡ turned_c self }
    {
        self.mul(Complex { re: 0.0, im: 1.0 })
    }
}
