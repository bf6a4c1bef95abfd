// Bytes and numbers put into a text: each stands from a place on, and the place behind it is answered.
ghost use Rattle.std.specs.Prelude.{◌≡◌, [], ◌∷◌, ◌+◌, ◌<◌, ◌≤◌, length};
ghost use Rattle.sheet.specs.Puts.{Put};
ghost use Rattle.sheet_answer.specs.Answer.{decimal};

// A number in decimal: what stands before its last digit, then that digit.
pub(crate) fn put_decimal(n: usize, out: &mut [u8], at: usize) -> usize
    requires { at + length (decimal n) ≤ length out.old }
    ensures { Put (decimal n) out.old at result out.new }
{
    if n < 10 {
        return put_byte(digit(n), out, at);
    }
    let next = put_decimal(n / 10, out, at);
    put_byte(digit(n % 10), out, next)
}

fn digit(d: usize) -> u8
    requires { d < 10 }
    ensures { result ≡ 48 + d }
{
    b'0' + d as u8
}

// Kept: `sheet` has the same two inside, where no other crate can call them: a public function has no `requires` here.
pub(crate) fn put(key: &[u8], out: &mut [u8], at: usize) -> usize
    requires { at + length key.now ≤ length out.old }
    ensures { Put key.now out.old at result out.new }
{
    let end = at + key.len();
    out[at..end].copy_from_slice(key);
    end
}

pub(crate) fn put_byte(b: u8, out: &mut [u8], at: usize) -> usize
    requires { at + 1 ≤ length out.old }
    ensures { Put (b ∷ []) out.old at result out.new }
{
    out[at] = b;
    at + 1
}
