// A sheet printed, with its rows in column order.
ghost use Rattle.std.specs.Prelude.{[], ◌≡◌, ◌+◌, ◌*◌, ◌<◌, ◌≤◌, length, take};
ghost use Rattle.sheet.specs.Sheet.{Print, columns_judged, factor_at, factors_judged, print_fits};
ghost use Rattle.sheet.specs.Puts.{two_lines, names_size};

use super::names::stands_in;
use super::put::put_sheet;
use ieee::finite::is_finite;
use naming::{Name, is_name};
use quant::refusal::{Answer, Refusal};

// Prints the first `count` names and the first count * count numbers.
pub fn print(count: usize, names: [Name; 8], matrix: &[f64], out: &mut [u8]) -> Answer
    ensures { Print count names matrix.now out.old result out.new }
{
    if !sizes_fit(count, names, matrix, out.len()) {
        return Err(Refusal::WrongSize.at(0));
    }
    columns_judged(names, count)?;
    factors_judged(count, &matrix[..count * count])?;
    Ok(put_sheet(count, names, matrix, out))
}

#[tactic(auto, unfolding(crate::specs::Sheet::print_fits))]
fn sizes_fit(count: usize, names: [Name; 8], matrix: &[f64], room: usize) -> bool
    ensures { result ≡ print_fits count names matrix.now room }
{
    if count < 1 {
        return false;
    }
    if 8 < count {
        return false;
    }
    count * count <= matrix.len() && needed(count, names) <= room
}

// The bytes of the text: 11 of the first line, 24 of each factor, and the lines of the names.
fn needed(count: usize, names: [Name; 8]) -> usize
    requires { count ≤ 8 }
    ensures { result ≡ 11 + 24 * (count * count) + names_size (take count names) }
{
    let mut size = 11 + 24 * (count * count);
    for n in &names[..count] {
        size += two_lines(*n);
    }
    size
}

fn two_lines(n: Name) -> usize
    ensures { result ≡ two_lines n }
{
    13 + 2 * n.len.min(16)
}

// The first bad line among the columns'.
fn columns_judged(names: [Name; 8], count: usize) -> Answer
    requires { count ≤ 8 }
    ensures { result ≡ columns_judged [] (take count names) }
{
    for k in 0..count {
        let line = k + 2;
        if !is_name(names[k]) {
            return Err(Refusal::Malformed.at(line));
        }
        if stands_in(names[k], &names[..k]) {
            return Err(Refusal::DoubledName.at(line));
        }
    }
    Ok(0)
}

// The first bad line among the factors'.
fn factors_judged(count: usize, numbers: &[f64]) -> Answer
    requires { (1 ≤ count) × (count ≤ 8) × (length numbers.now ≤ 64) }
    ensures { result ≡ factors_judged count 0 numbers.now }
{
    for (i, x) in numbers.iter().enumerate() {
        if !is_finite(*x) {
            return Err(Refusal::Malformed.at(factor_at(count, i)));
        }
    }
    Ok(0)
}

// The line of the factor at i, from 0.
fn factor_at(count: usize, i: usize) -> usize
    requires { (1 ≤ count) × (count ≤ 8) × (i < 64) }
    ensures { result ≡ factor_at count i }
{
    1 + count + (i / count + 1) + (i + 1)
}
