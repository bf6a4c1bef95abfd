// The figures of a text but for the byte at its point.
ghost use Rattle.std.specs.Prelude.{◌≡◌, ◌+◌, ◌^◌, ◌≤◌, ◌<◌, length, get_or, take, drop};
ghost use Rattle.wide_decimal.specs.Figures.{figure_of, worth, without};

// How many there are.
pub(crate) fn count(text: &[u8], point: usize) -> usize
    ensures { result ≡ length (without point text.now) }
{
    if point < text.len() {
        text.len() - 1
    } else {
        text.len()
    }
}

// The k-th, from 0.
fn figure(text: &[u8], point: usize, k: usize) -> u64
    requires { k < length (without point text.now) }
    ensures { result ≡ figure_of (get_or (without point text.now) k 0) }
{
    worth_of(if k < point { text[k] } else { text[k + 1] })
}

#[tactic(auto, unfolding(crate::specs::Figures::figure_of))]
fn worth_of(b: u8) -> u64
    ensures { result ≡ figure_of b }
{
    if b.is_ascii_digit() {
        (b - b'0') as u64
    } else {
        0
    }
}

// At most nine of them, from the k-th on, as a whole number.
pub(crate) fn group(text: &[u8], point: usize, k: usize, n: usize) -> u64
    requires { (n ≤ 9) × (k + n ≤ length (without point text.now)) }
    ensures { result ≡ worth (take n (drop k (without point text.now))) }
{
    let mut all = 0;
    for i in k..k + n {
        all = all * 10 + figure(text, point, i);
    }
    all
}

pub(crate) fn ten_to(n: usize) -> u64
    requires { n ≤ 9 }
    ensures { result ≡ 10 ^ n }
{
    10u64.pow(n as u32)
}
