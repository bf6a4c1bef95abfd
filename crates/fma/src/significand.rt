// A double that is finite and not zero, as a significand of 63 bits and an exponent over 2^1136.
ghost use Rattle.std.specs.Prelude.{◌*◌, ◌%◌, ◌^◌, ◌<◌};
ghost use Rattle.fma.specs.Significand.{Shifted, Significand};

// m * 2^e
#[derive(Clone, Copy)]
pub struct Scaled {
    pub m: u64,
    pub e: u64,
}

// A number of at most 53 bits, brought to 63 by the count of its leading zeros.
fn shifted(t: u64, k: u64) -> Scaled
    requires { (0 < t) × (t < 2 ^ 53) × (k < 2046) }
    ensures { Shifted result.m result.e t k }
{
    let z = u64::leading_zeros(t) as u64;
    let m = t << (z - 1);
    let e = k + 63 - z;
    Scaled { m: m, e: e }
}

pub(crate) fn significand(b: u64) -> Scaled
    requires { (0 < b % 2 ^ 63) × (b % 2 ^ 63 < 2047 * 2 ^ 52) }
    ensures { Significand result.m result.e b }
{
    let field = (b & 0x7fff_ffff_ffff_ffff) >> 52;
    let digits = b & 0xf_ffff_ffff_ffff;
    if field == 0 {
        shifted(digits, 0)
    } else {
        shifted(digits + 0x10_0000_0000_0000, field - 1)
    }
}
