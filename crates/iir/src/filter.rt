// A row through all sections of a list: none change it, one to four are the pipeline, more the cascade.
ghost use Rattle.std.specs.Prelude.{◌≡◌, [], ◌∷◌, ◌+◌, ◌*◌, ◌≤◌, ◌<◌, length};
ghost use Rattle.iir.specs.Section.{sections_from, sections_of};
ghost use Rattle.iir.specs.Filter.{cascade, pipeline, filtered};

use super::biquad::{Biquad, section};
use super::flight::{four, one, side_by_side, three, two};

// Both rows of a channel. One section keeps a row waiting for it, so two rows of one length go through it side by side.
pub(crate) fn filter_rows(i: &mut [f64], q: &mut [f64], numbers: &[f64])
    ensures i_after { i.new ≡ filtered (sections_of numbers.now) i.old }
    ensures q_after { q.new ≡ filtered (sections_of numbers.now) q.old }
{
    if i.len() == q.len() && numbers.len() / 6 == 1 {
        side_by_side(i, q, section(numbers, 0));
    } else {
        filter(i, numbers);
        filter(q, numbers);
    }
}

fn filter(row: &mut [f64], numbers: &[f64])
    ensures { row.new ≡ filtered (sections_of numbers.now) row.old }
{
    match numbers.len() / 6 {
        0 => {}
        1 => one(row, section(numbers, 0)),
        2 => pipeline_of_two(row, section(numbers, 0), section(numbers, 1)),
        3 => pipeline_of_three(
            row,
            section(numbers, 0),
            section(numbers, 1),
            section(numbers, 2),
        ),
        4 => pipeline_of_four(
            row,
            section(numbers, 0),
            section(numbers, 1),
            section(numbers, 2),
            section(numbers, 3),
        ),
        _ => in_cascade(row, numbers),
    }
}

// The pipeline is the cascade, but that a section starts from where the turns before the first sample leave it. In each of them it
// takes what the section before it gave the turn before.
// Kept: one for each number of sections, as `flight` has them.
fn pipeline_of_two(row: &mut [f64], a: Biquad, b: Biquad)
    ensures { row.new ≡ pipeline (a ∷ b ∷ []) row.old }
{
    two(row, a, b.run(a.y));
}

fn pipeline_of_three(row: &mut [f64], a: Biquad, b: Biquad, c: Biquad)
    ensures { row.new ≡ pipeline (a ∷ b ∷ c ∷ []) row.old }
{
    let second = b.run(a.y);
    let third = c.run(b.y).run(second.y);
    three(row, a, second, third);
}

fn pipeline_of_four(row: &mut [f64], a: Biquad, b: Biquad, c: Biquad, d: Biquad)
    ensures { row.new ≡ pipeline (a ∷ b ∷ c ∷ d ∷ []) row.old }
{
    let second = b.run(a.y);
    let once = c.run(b.y);
    let third = once.run(second.y);
    let fourth = d.run(c.y).run(once.y).run(third.y);
    four(row, a, second, third, fourth);
}

// Four sections at a time.
// Kept: `step_by(4)` is no plainer, since it does not say where the rest begins.
fn in_cascade(row: &mut [f64], numbers: &[f64])
    ensures { row.new ≡ cascade (sections_of numbers.now) row.old }
{
    let count = numbers.len() / 6;
    let mut k = 0;
    while k + 4 <= count {
        four(
            row,
            section(numbers, k),
            section(numbers, k + 1),
            section(numbers, k + 2),
            section(numbers, k + 3),
        );
        k += 4;
    }
    rest_in_cascade(row, numbers, k, count - k);
}

// The sections from k on, of which three at most are left.
fn rest_in_cascade(row: &mut [f64], numbers: &[f64], k: usize, left: usize)
    requires { (left < 4) × (6 * (k + left) ≤ length numbers.now) }
    ensures { row.new ≡ cascade (sections_from numbers.now left k) row.old }
{
    match left {
        0 => {}
        1 => one(row, section(numbers, k)),
        2 => two(row, section(numbers, k), section(numbers, k + 1)),
        _ => three(
            row,
            section(numbers, k),
            section(numbers, k + 1),
            section(numbers, k + 2),
        ),
    }
}
