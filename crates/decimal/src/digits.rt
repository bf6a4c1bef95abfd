// Digits: where a text is parted, and the whole number that digits stand for.
ghost use Rattle.std.specs.Prelude.{◌≡◌, ◌+◌, ◌-◌, ◌*◌, ◌^◌, ◌≤◌, min, length};
ghost use Rattle.decimal.specs.Digits.{place_of, digit_of, digits_from, digits_of};
ghost use Rattle.decimal.specs.Number.{mark_of};

// Where a byte first stands in a text; the text's length where it does not.
pub fn place(text: &[u8], b: u8) -> usize
    ensures { result ≡ place_of b text.now }
{
    text.iter().position(|x| *x == b).unwrap_or(text.len())
}

// Where a letter or its capital first stands.
pub(crate) fn mark(text: &[u8], b: u8) -> usize
    requires { 32 ≤ b }
    ensures { result ≡ mark_of b text.now }
{
    place(text, b).min(place(text, b - 32))
}

// The place behind a byte that parts a text; at the text's end the end itself.
pub(crate) fn behind(at: usize, end: usize) -> usize
    requires { at ≤ end }
    ensures { result ≡ min (at + 1) end }
{
    if at < end { at + 1 } else { end }
}

// A whole number of 1 to 15 figures.
#[tactic(auto, unfolding(crate::specs::Digits::digits_of))]
pub fn figures(text: &[u8]) -> Option<u64>
    ensures { result ≡ digits_of text.now }
{
    if text.is_empty() || 15 < text.len() {
        return None;
    }
    follow(10, 0, text)
}

// The whole number that digits of a base stand for behind those of `start`.
pub(crate) fn follow(base: u64, start: u64, text: &[u8]) -> Option<u64>
    requires { (1 ≤ base) × ((start + 1) * base ^ length text.now ≤ 2 ^ 64) }
    ensures { result ≡ digits_from base start text.now }
{
    let mut n = start;
    for b in text {
        let d = digit(*b);
        if base <= d {
            return None;
        }
        n = n * base + d;
    }
    Some(n)
}

// What a digit is worth, 16 for any other byte.
#[tactic(auto, unfolding(crate::specs::Digits::digit_of))]
pub(crate) fn digit(b: u8) -> u64
    ensures { result ≡ digit_of b }
{
    match b {
        b'0'..=b'9' => (b - b'0') as u64,
        b'A'..=b'F' => (b - b'A') as u64 + 10,
        b'a'..=b'f' => (b - b'a') as u64 + 10,
        _ => 16,
    }
}
