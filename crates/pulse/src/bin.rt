// A bin: pulses that differ only in time and amplitude. The Rust's `ListBin`. Bins lie in lent rows of 77 numbers: a head of five, and the 72 numbers of a
// spline.
ghost use Rattle.std.specs.Prelude.{◌≡◌, ◌++◌, take};
ghost use Rattle.pulse.specs.Bin.{code_of, shape_of, head_of, bin_of, kind_of, same_row, place_of};

use super::envelope::{Envelope, Shape};
use quant::quantity::{Frequency, Time};
use spline::same::same;

#[derive(Clone, Copy)]
pub struct Bin {
    pub envelope: Envelope,
    pub global: Frequency,
    pub local: Frequency,
}

// Shape code, width, plateau, global and local frequency.
pub fn head_of(b: Bin) -> [f64; 5]
    ensures { result ≡ head_of b }
{
    let Envelope {
        shape,
        width,
        plateau,
    } = b.envelope;
    [code(shape), width.0, plateau.0, b.global.0, b.local.0]
}

// A bin's row: its head, and the numbers behind it.
pub fn row_of(head: [f64; 5], numbers: [f64; 72]) -> [f64; 77]
    ensures { result ≡ head ++ numbers }
{
    let mut row = [0.0f64; 77];
    row[..5].copy_from_slice(&head);
    row[5..].copy_from_slice(&numbers);
    row
}

pub fn head_in(row: [f64; 77]) -> [f64; 5]
    ensures { result ≡ take 5 row }
{
    let [shape, width, plateau, global, local, ..] = row;
    [shape, width, plateau, global, local]
}

// The bin that a row stands for. A row may hold any numbers.
pub fn bin_of(row: [f64; 77]) -> Bin
    ensures { result ≡ bin_of row }
{
    let [shape, width, plateau, global, local, ..] = row;
    Bin {
        envelope: Envelope {
            shape: shape_of(shape),
            width: Time(width),
            plateau: Time(plateau),
        },
        global: Frequency(global),
        local: Frequency(local),
    }
}

// What a shape's name stands for, by its row: Hann, unless it has controls.
pub fn kind_of(numbers: [f64; 72]) -> Shape
    ensures { result ≡ kind_of numbers }
{
    if numbers[1] == 0.0 {
        Shape::Hann
    } else {
        Shape::Spline
    }
}

// Where the first row stands that is the same as one, or how many rows there are.
pub fn place(head: [f64; 5], numbers: &[f64], rows: &[[f64; 77]]) -> usize
    ensures { result ≡ place_of (head ++ numbers.now) rows.now }
{
    rows.iter()
        .position(|row| same_row(row, &head, numbers))
        .unwrap_or(rows.len())
}

// The numbers behind the head are read only of a spline.
fn same_row(row: &[f64; 77], head: &[f64; 5], numbers: &[f64]) -> bool
    ensures { result ≡ same_row row.now (head.now ++ numbers.now) }
{
    same(&row[..5], head) && (head[0] != 2.0 || same(&row[5..], numbers))
}

fn code(shape: Shape) -> f64
    ensures { result ≡ code_of shape }
{
    match shape {
        Shape::Plain => 0.0,
        Shape::Hann => 1.0,
        Shape::Spline => 2.0,
    }
}

fn shape_of(code: f64) -> Shape
    ensures { result ≡ shape_of code }
{
    if code == 1.0 {
        Shape::Hann
    } else if code == 2.0 {
        Shape::Spline
    } else {
        Shape::Plain
    }
}
