// A 64-bit word as text: 16 lowercase hex digits, the most significant first.
#![tactic(auto)]

ghost use Rattle.std.specs.Prelude.{◌≡◌, ◌<◌};
ghost use Rattle.hexadecimal.specs.Hex.{digit_value, digit_of, word_at, Wrote};

// The word whose digits stand at text[at..at + 16].
pub fn read(text: &[u8], at: usize) -> Option<u64>
    ensures { result ≡ word_at text.now at }
{
    if text.len() < 16 || text.len() - 16 < at {
        return None;
    }
    let mut word: u64 = 0;
    for i in 0..16 {
        let d = digit_value(text[at + i]);
        if 16 <= d {
            return None;
        }
        word = word * 16 + d;
    }
    Some(word)
}

// Puts the digits of word at out[at..at + 16] and answers true, or leaves out as it is and answers false where they do not fit.
pub fn write(word: u64, out: &mut [u8], at: usize) -> bool
    ensures { Wrote word out.old at result out.new }
{
    if out.len() < 16 || out.len() - 16 < at {
        return false;
    }
    let mut rest = word;
    for i in (0..16).rev() {
        out[at + i] = digit_of(rest % 16);
        rest /= 16;
    }
    true
}

// What a byte is worth as a digit; 16 for a byte that is none.
#[tactic(auto, unfolding(crate::specs::Hex::digit_value))]
fn digit_value(b: u8) -> u64
    ensures { result ≡ digit_value b }
{
    match b {
        b'0'..=b'9' => (b - b'0') as u64,
        b'a'..=b'f' => (b - b'a' + 10) as u64,
        _ => 16,
    }
}

// The digit that is worth n.
#[tactic(auto, unfolding(crate::specs::Hex::digit_of))]
fn digit_of(n: u64) -> u8
    requires { n < 16 }
    ensures { result ≡ digit_of n }
{
    if n < 10 {
        b'0' + n as u8
    } else {
        b'a' + (n as u8 - 10)
    }
}
