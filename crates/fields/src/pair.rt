// Two numbers side by side, each behind its key.
ghost use Rattle.std.specs.Prelude.{◌≡◌};
ghost use Rattle.fields.specs.Words.{word_in};
ghost use Rattle.fields.specs.Value.{pair_field};

use super::value::number_in;

// Those of words k and l.
pub fn pair_in(line: &[u8], k: usize, first: &[u8], l: usize, second: &[u8]) -> Option<(f64, f64)>
    ensures { result ≡ pair_field first.now second.now (word_in line.now k) (word_in line.now l) }
{
    let x = number_in(line, k, first)?;
    let y = number_in(line, l, second)?;
    Some((x, y))
}
