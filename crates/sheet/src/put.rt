// Bytes put into a text: each function puts something at a place and answers the place behind it.
ghost use Rattle.std.specs.Prelude.{◌≡◌, true, [], ◌∷◌, ◌+◌, ◌≤◌, length, take};
ghost use Rattle.std.specs.Float.Ieee.Scale.{finite};
ghost use Rattle.naming.specs.Name.{is_name};
ghost use Rattle.sheet.specs.Sheet.{column_key, good_names, all_finite, patterns, count_text, columns_text, factors_text, blocks_text, blocks_of, sheet_of, sheet_text};
ghost use Rattle.sheet.specs.Puts.{Put, Printable, block_text, name_line, factor_line};

use naming::Name;

// The whole sheet, at the start.
pub(crate) fn put_sheet(count: usize, names: [Name; 8], matrix: &[f64], out: &mut [u8]) -> usize
    requires { Printable count names matrix.now × (length (sheet_text (sheet_of count names matrix.now)) ≤ length out.old) }
    ensures { Put (sheet_text (sheet_of count names matrix.now)) out.old 0 result out.new }
{
    let head = put_head(count, out);
    let columns = put_columns(names, count, out, head);
    put_blocks(names, count, matrix, out, columns)
}

fn put_head(count: usize, out: &mut [u8]) -> usize
    requires { (count ≤ 8) × (11 ≤ length out.old) }
    ensures { Put (count_text count) out.old 0 result out.new }
{
    let digit = put(b"channels=", out, 0);
    let feed = put_byte(b'0' + count as u8, out, digit);
    put_byte(b'\n', out, feed)
}

fn put_columns(names: [Name; 8], count: usize, out: &mut [u8], from: usize) -> usize
    requires { (count ≤ 8) × (good_names (take count names) ≡ true) × (from + length (columns_text (take count names)) ≤ length out.old) }
    ensures { Put (columns_text (take count names)) out.old from result out.new }
{
    let mut at = from;
    for i in 0..count {
        at = put_column(names[i], out, at);
    }
    at
}

fn put_column(n: Name, out: &mut [u8], from: usize) -> usize
    requires { (is_name n ≡ true) × (from + length (name_line column_key n) ≤ length out.old) }
    ensures { Put (name_line column_key n) out.old from result out.new }
{
    put_name(b"column=", n, out, from)
}

fn put_blocks(names: [Name; 8], count: usize, matrix: &[f64], out: &mut [u8], from: usize) -> usize
    requires { Printable count names matrix.now × (from + length (blocks_text (blocks_of count (take count names) matrix.now)) ≤ length out.old) }
    ensures { Put (blocks_text (blocks_of count (take count names) matrix.now)) out.old from result out.new }
{
    let mut at = from;
    for i in 0..count {
        let row = i * count;
        at = put_block(names[i], &matrix[row..row + count], out, at);
    }
    at
}

// A row's line and its factors' lines.
fn put_block(n: Name, numbers: &[f64], out: &mut [u8], from: usize) -> usize
    requires { (is_name n ≡ true) × (all_finite numbers.now ≡ true) × (from + length (block_text n numbers.now) ≤ length out.old) }
    ensures { Put (block_text n numbers.now) out.old from result out.new }
{
    let at = put_name(b"row=", n, out, from);
    put_factors(numbers, out, at)
}

fn put_factors(numbers: &[f64], out: &mut [u8], from: usize) -> usize
    requires { (all_finite numbers.now ≡ true) × (from + length (factors_text (patterns numbers.now)) ≤ length out.old) }
    ensures { Put (factors_text (patterns numbers.now)) out.old from result out.new }
{
    let mut at = from;
    for x in numbers {
        at = put_factor(*x, out, at);
    }
    at
}

// A line of a key and a name.
fn put_name(key: &[u8], n: Name, out: &mut [u8], from: usize) -> usize
    requires { (is_name n ≡ true) × (from + length (name_line key.now n) ≤ length out.old) }
    ensures { Put (name_line key.now n) out.old from result out.new }
{
    let at = put(key, out, from);
    naming::write(n, out, at);
    put_byte(b'\n', out, at + n.len)
}

// A line of a factor.
fn put_factor(x: f64, out: &mut [u8], from: usize) -> usize
    requires { (finite x ≡ true) × (from + 24 ≤ length out.old) }
    ensures { Put (factor_line x) out.old from result out.new }
{
    let at = put(b"factor=", out, from);
    hexadecimal::write(f64::to_bits(x), out, at);
    put_byte(b'\n', out, at + 16)
}

pub(crate) fn put(key: &[u8], out: &mut [u8], at: usize) -> usize
    requires { at + length key.now ≤ length out.old }
    ensures { Put key.now out.old at result out.new }
{
    let end = at + key.len();
    out[at..end].copy_from_slice(key);
    end
}

pub(crate) fn put_byte(b: u8, out: &mut [u8], at: usize) -> usize
    requires { at + 1 ≤ length out.old }
    ensures { Put (b ∷ []) out.old at result out.new }
{
    out[at] = b;
    at + 1
}
