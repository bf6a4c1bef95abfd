// roundToIntegralTowardPositive of IEEE 754-2019, 5.9, from the bits.
ghost use Rattle.std.specs.Prelude.{◌≡◌, ◌*◌, ◌%◌, ◌^◌, ◌<◌, from_bits};
ghost use Rattle.std.specs.Float.{binary64};
ghost use Rattle.ieee.specs.Ceiling.{ceiling};
ghost use Rattle.ieee.specs.Fraction.{Fraction};

// The least whole number that is not below x; a NaN, an infinity or a zero as it comes. From 2^52
// on there is no fraction, and the exponent's field of 2^52 is 1075.
pub fn ceil(x: f64) -> f64
    ensures { result ≡ ceiling x }
{
    if x.is_nan() {
        return x;
    }
    let bits = x.to_bits();
    let field = (bits & 0x7fff_ffff_ffff_ffff) >> 52;
    if field >= 1075 {
        x
    } else if field < 1023 {
        below_one(bits)
    } else {
        from_one(bits, 1075 - field)
    }
}

// Of a number below 1 in size: 1, or a zero with its sign.
fn below_one(bits: u64) -> f64
    requires { bits % 2 ^ 63 < 1023 * 2 ^ 52 }
    ensures { result ≡ ceiling (from_bits binary64 bits) }
{
    if bits == 0 {
        0.0
    } else if bits < 0x8000_0000_0000_0000 {
        // the sign's bit is not set
        1.0
    } else {
        -0.0
    }
}

// Of a number from 1 on in size, whose last `drop` digits are its fraction. A negative one loses
// them, another goes on to the next whole number, where a carry out of the digits raises the
// exponent by one.
fn from_one(bits: u64, drop: u64) -> f64
    requires { Fraction bits drop }
    ensures { result ≡ ceiling (from_bits binary64 bits) }
{
    let cut = bits >> drop << drop;
    if bits >= 0x8000_0000_0000_0000 {
        // the sign's bit is set
        f64::from_bits(cut)
    } else if cut == bits {
        f64::from_bits(bits)
    } else {
        f64::from_bits(cut + (1 << drop))
    }
}
