// Numbers of two 64-bit words: the product of two words, the sum, the difference and the order of two such numbers.
// Low words are added and subtracted with wrap, and the carry is found by comparing.
ghost use Rattle.std.specs.Prelude.{◌≡◌, ◌+◌, ◌-◌, ◌*◌, ◌^◌, ◌<◌, ◌≤◌, nat_lt};
ghost use Rattle.fma.specs.Words.{words};

// hi * 2^64 + lo
#[derive(Clone, Copy)]
pub struct Wide {
    pub hi: u64,
    pub lo: u64,
}

// By columns of 32 bits.
pub(crate) fn product(u: u64, v: u64) -> Wide
    ensures lo_value { words result.hi result.lo ≡ u * v }
    ensures lo_bound { result.lo < 2 ^ 64 }
{
    let u0 = u & 0xffff_ffff;
    let u1 = u >> 32;
    let v0 = v & 0xffff_ffff;
    let v1 = v >> 32;
    let first = u0 * v0;
    let middle = u1 * v0 + (first >> 32);
    let second = (middle & 0xffff_ffff) + u0 * v1;
    let hi = u1 * v1 + (middle >> 32) + (second >> 32);
    let lo = ((second & 0xffff_ffff) << 32) + (first & 0xffff_ffff);
    Wide { hi: hi, lo: lo }
}

pub(crate) fn add(xh: u64, xl: u64, yh: u64, yl: u64) -> Wide
    requires { (xh < 2 ^ 63) × (yh < 2 ^ 63) }
    ensures { words result.hi result.lo ≡ words xh xl + words yh yl }
{
    let lo = std::num::wrapping_add_u64(xl, yl);
    if lo < xl {
        let hi = xh + yh + 1;
        Wide { hi: hi, lo: lo }
    } else {
        let hi = xh + yh;
        Wide { hi: hi, lo: lo }
    }
}

pub(crate) fn sub(xh: u64, xl: u64, yh: u64, yl: u64) -> Wide
    requires { words yh yl ≤ words xh xl }
    ensures { words result.hi result.lo ≡ words xh xl - words yh yl }
{
    let lo = std::num::wrapping_sub_u64(xl, yl);
    if xl < yl {
        let hi = xh - yh - 1;
        Wide { hi: hi, lo: lo }
    } else {
        let hi = xh - yh;
        Wide { hi: hi, lo: lo }
    }
}

pub(crate) fn less(xh: u64, xl: u64, yh: u64, yl: u64) -> bool
    ensures { result ≡ nat_lt (words xh xl) (words yh yl) }
{
    if xh < yh {
        return true;
    }
    if yh < xh {
        return false;
    }
    xl < yl
}
