// The digits of a number, with at most one point among them.
ghost use Rattle.std.specs.Prelude.{◌≡◌, ◌^◌, ◌≤◌};
ghost use Rattle.decimal.specs.Number.{few_of};

use super::digits::{behind, follow, place};

// As a whole number, and how many of them stand behind the point.
#[derive(Clone, Copy, Debug, PartialEq, Eq)]
pub struct Significand {
    pub digits: u64,
    pub fraction: u64,
}

// 1 to so many of them.
pub(crate) fn few(base: u64, most: usize, text: &[u8]) -> Option<Significand>
    requires { (1 ≤ base) × (base ^ most ≤ 2 ^ 64) }
    ensures { result ≡ few_of base most text.now }
{
    let point = place(text, b'.');
    let next = behind(point, text.len());
    let count = point + (text.len() - next);
    if count < 1 {
        return None;
    }
    if most < count {
        return None;
    }
    let whole = follow(base, 0, &text[..point])?;
    let digits = follow(base, whole, &text[next..])?;
    Some(Significand {
        digits,
        fraction: (text.len() - next) as u64,
    })
}
