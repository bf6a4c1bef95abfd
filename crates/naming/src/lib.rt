// Names of channels and shapes. Document 01: "A name is 1..16 bytes of 0x21..0x7E without `=`, compared byte by byte";
// "names by value as two 64-bit words and a length". They stand for the Rust's `Arc<str>`.
#![tactic(auto)]

ghost use Rattle.std.specs.Prelude.{◌≡◌, ◌≤◌, ◌<◌, length, get_or};
ghost use Rattle.naming.specs.Name.{name_byte, every, word_of, bytes_of_word, sixteen, naming_of, is_name, in_place, same_name, Wrote};

// Byte i of a name is byte i of first, counted from the least significant, for i < 8, and byte i - 8 of second from 8 on.
// The three numbers may be any: `is_name` judges them.
#[derive(Clone, Copy, PartialEq, Eq)]
pub struct Name {
    pub first: u64,
    pub second: u64,
    pub len: usize,
}

// The name that a whole text is; none where the text breaks the rule (refusal 2).
pub fn from_bytes(text: &[u8]) -> Option<Name>
    ensures { result ≡ naming_of text.now }
{
    if text.is_empty() {
        return None;
    }
    if 16 < text.len() {
        return None;
    }
    if !all_stand(text) {
        return None;
    }
    let len = text.len();
    if len <= 8 {
        let first = word_of(text);
        return Some(Name {
            first,
            second: 0,
            len,
        });
    }
    let first = word_of(&text[..8]);
    let second = word_of(&text[8..]);
    Some(Name { first, second, len })
}

// Whether the three numbers are well formed, as those of `from_bytes` are.
pub fn is_name(n: Name) -> bool
    ensures { result ≡ is_name n }
{
    let Name { first, second, len } = n;
    if len < 1 {
        return false;
    }
    if 16 < len {
        return false;
    }
    for i in 0..16 {
        if !in_place(byte_at(first, second, i), i, len) {
            return false;
        }
    }
    true
}

// Whether two names are the same. Well-formed ones are exactly when their bytes are.
#[tactic(auto, unfolding(crate::specs::Name::same_name))]
pub fn same(a: Name, b: Name) -> bool
    ensures { result ≡ same_name a b }
{
    a == b
}

// Puts the bytes of n at out[at..at + len] and answers true. Where they do not fit, or n is no name, it leaves out as it is and answers false.
pub fn write(n: Name, out: &mut [u8], at: usize) -> bool
    ensures { Wrote n out.old at result out.new }
{
    if !is_name(n) {
        return false;
    }
    let Name { first, second, len } = n;
    if out.len() < len {
        return false;
    }
    if out.len() - len < at {
        return false;
    }
    for put in 0..len {
        out[at + put] = byte_at(first, second, put);
    }
    true
}

// Whether a byte may stand in a name.
#[tactic(auto, unfolding(crate::specs::Name::name_byte))]
fn stands(b: u8) -> bool
    ensures { result ≡ name_byte b }
{
    0x21 <= b && b <= 0x7E && b != b'='
}

fn all_stand(text: &[u8]) -> bool
    ensures { result ≡ every name_byte text.now }
{
    for b in text {
        if !stands(*b) {
            return false;
        }
    }
    true
}

// The bytes of a part of a text as a word, gathered from the last, the most significant, to the first.
fn word_of(part: &[u8]) -> u64
    requires { length part.now ≤ 8 }
    ensures { result ≡ word_of part.now }
{
    let mut word: u64 = 0;
    for i in (0..part.len()).rev() {
        word = word * 256 + part[i] as u64;
    }
    word
}

// Byte i of two words.
fn byte_at(first: u64, second: u64, i: usize) -> u8
    requires { i < 16 }
    ensures { result ≡ get_or (sixteen first second) i 0 }
{
    if i < 8 {
        return byte_of(first, i);
    }
    byte_of(second, i - 8)
}

// Byte i of a word, counted from the least significant.
fn byte_of(word: u64, i: usize) -> u8
    requires { i < 8 }
    ensures { result ≡ get_or (bytes_of_word word) i 0 }
{
    ((word >> (8 * i)) % 256) as u8
}

// Whether b may be byte i of the two words of a name of len bytes.
#[tactic(auto, unfolding(crate::specs::Name::in_place))]
fn in_place(b: u8, i: usize, len: usize) -> bool
    ensures { result ≡ in_place len i b }
{
    if i < len { stands(b) } else { b == 0 }
}
