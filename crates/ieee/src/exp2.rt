// 2 to the power of a whole number, from the bits.
ghost use Rattle.std.specs.Prelude.{◌≡◌, pos, ◌+ℤ◌};
ghost use Rattle.ieee.specs.Exp2.{exp2_of, Exponent};

// 2^n, rounded once. 2^-1074 is the smallest f64, half of it is a tie, which goes to 0, and from
// 2^1024 on it is an infinity. The smallest normal f64 is 52 places above the smallest.
pub fn exp2(n: i32) -> f64
    ensures { result ≡ exp2_of n }
{
    if n < -1074 {
        return 0.0;
    }
    if n > 1023 {
        return f64::INFINITY;
    }
    let k = places(n);
    f64::from_bits(if k < 52 { 1 << k } else { (k - 51) << 52 })
}

// How many places 2^n lies above the smallest f64.
fn places(n: i32) -> u64
    requires { Exponent n }
    ensures { n +ℤ pos 1074 ≡ pos result }
{
    (n + 1074) as u64
}
