// A double printed: 16 lowercase hex digits, and every NaN as 7ff8000000000000.
ghost use Rattle.std.specs.Prelude.{◌≡◌};
ghost use Rattle.std.specs.Float.{binary64};
ghost use Rattle.std.specs.Float.Ieee.{to_bits};
ghost use Rattle.hexadecimal.specs.Hex.{Wrote};

// Puts the digits at out[at..at + 16] and answers true, or leaves out as it is and answers false where they do not fit.
pub fn put_double(x: f64, out: &mut [u8], at: usize) -> bool
    ensures { Wrote (to_bits binary64 x) out.old at result out.new }
{
    hexadecimal::write(pattern(x), out, at)
}

// The bits of a double. Only those of no NaN may be taken.
pub fn pattern(x: f64) -> u64
    ensures { result ≡ to_bits binary64 x }
{
    if x != x {
        return 0x7ff8_0000_0000_0000;
    }
    f64::to_bits(x)
}
