// A number of many digits of 32 bits, the lowest first: multiplied and divided by a number of one digit, and its leading bits.
ghost use Rattle.std.specs.Prelude.{◌≡◌, ℕ, ◌+◌, ◌*◌, ◌^◌, ◌≤◌, ◌<◌, length};
ghost use Rattle.wide_decimal.specs.Limbs.{value, weight};
ghost use Rattle.wide_decimal.specs.Near.{Near, Top};

// a * m + c, and what does not fit.
pub(crate) fn times(a: &mut [u32], m: u64, c: u64) -> u64
    requires { (m < 2 ^ 32) × (c < 2 ^ 32) }
    ensures { (value a.new + result * weight (length a.old) ≡ value a.old * m + c) × (value a.new < weight (length a.old)) }
{
    let mut carry = c;
    for x in a.iter_mut() {
        let t = *x as u64 * m + carry;
        *x = (t % 0x1_0000_0000) as u32;
        carry = t / 0x1_0000_0000;
    }
    carry
}

// a with the digit c above it, by m, and the rest.
fn over(a: &mut [u32], m: u64, c: u64) -> u64
    requires { (c < m) × (m < 2 ^ 32) }
    ensures { (value a.new * m + result ≡ c * weight (length a.old) + value a.old) × (result < m) }
{
    let mut rest = c;
    for i in (0..a.len()).rev() {
        let t = rest * 0x1_0000_0000 + a[i] as u64;
        a[i] = (t / m) as u32;
        rest = t % m;
    }
    rest
}

// The same without the rest: the last bit is set where there was any.
pub(crate) fn cut(a: &mut [u32], m: u64, c: u64)
    requires { (c < m) × (m < 2 ^ 32) × (0 < length a.old) }
    ensures { Near (value a.new) m (c * weight (length a.old) + value a.old) }
{
    if over(a, m, c) != 0 {
        a[0] |= 1;
    }
}

// Leading bits: two words of them, and how many bits stand below them.
#[derive(Clone, Copy)]
pub struct Front {
    pub bits: u128,
    pub lost: u64,
}

// Those of a number with the digits of a behind it. Two or three digits that are not 0 are kept, and the last bit is set where anything was lost.
pub(crate) fn top(front: Front, a: &[u32]) -> Front
    requires { (front.bits < 2 ^ 96) × (front.lost ≤ 2 ^ 12) × (length a.now ≤ 2 ^ 6) }
    ensures { ((s : ℕ) → Top front.bits front.lost s → Top result.bits result.lost (s * weight (length a.now) + value a.now)) × (result.bits < 2 ^ 96) × (result.lost ≤ front.lost + 32 * length a.now) }
{
    let Front { mut bits, mut lost } = front;
    for i in (0..a.len()).rev() {
        if bits < 0x1_0000_0000_0000_0000 {
            bits = bits << 32 | a[i] as u128;
        } else {
            lost += 32;
            if a[i] != 0 {
                bits |= 1;
            }
        }
    }
    Front { bits, lost }
}
