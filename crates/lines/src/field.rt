// The numbers of a line: each is the bits of a double, 16 lowercase hex digits after one space.
ghost use Rattle.std.specs.Prelude.{◌≡◌};
ghost use Rattle.std.specs.Float.{binary64};
ghost use Rattle.std.specs.Float.Ieee.{nan_bits, of_bits};
ghost use Rattle.lines.specs.Field.{number_at};

// The number after the space at a place of a line.
#[tactic(auto, unfolding(crate::specs::Field::number_at))]
pub fn number_at(line: &[u8], at: usize) -> Option<u64>
    ensures { result ≡ number_at line.now at }
{
    match line.get(at) {
        Some(b' ') => hexadecimal::read(line, at + 1),
        _ => None,
    }
}

// The double that a pattern stands for. Only a pattern that is no NaN's may be taken for a double's bits, so a NaN is made.
pub fn float_of(bits: u64) -> f64
    ensures { result ≡ of_bits binary64 bits }
{
    if nan_bits(bits) {
        return 0.0 / 0.0;
    }
    f64::from_bits(bits)
}

// Whether a pattern is a NaN's: above infinity's, the sign left out.
fn nan_bits(bits: u64) -> bool
    ensures { result ≡ nan_bits binary64 bits }
{
    0x7ff0_0000_0000_0000 < bits % 0x8000_0000_0000_0000
}
