// The numbers of a list, from a line's words into a lent buffer.
#![tactic(auto)]

ghost use Rattle.numbers.specs.Numbers.{Begun, Stored};

use decimal::digits::place;

// Stores the numbers from word k on, up to the first word that is none and as many as out has room for, and answers how many.
pub fn numbers(line: &[u8], k: usize, out: &mut [f64]) -> usize
    ensures { Stored line.now k out.old result out.new }
{
    let mut at = begin(line, k);
    for n in 0..out.len() {
        let end = at + place(&line[at..], b' ');
        let Some(x) = decimal::number::read(&line[at..end]) else {
            return n;
        };
        out[n] = x;
        if end == line.len() {
            return n + 1;
        }
        at = end + 1;
    }
    out.len()
}

// Where the numbers from word k on begin; the line's end where there is no such word.
fn begin(line: &[u8], k: usize) -> usize
    ensures { Begun line.now k result }
{
    let mut at: usize = 0;
    for _ in 0..k {
        let end = at + place(&line[at..], b' ');
        if end == line.len() {
            return end;
        }
        at = end + 1;
    }
    at
}
