// A spline as a row of 72 numbers, and back.
ghost use Rattle.std.specs.Prelude.{◌≡◌, ◌<◌, MatchOption, false, length, slice_index_or};
ghost use Rattle.exact.specs.Doubles.{nought};
ghost use Rattle.spline.specs.Row.{row_of};
ghost use Rattle.spline.specs.Spline.{control_at, knot_at, Sizes};
ghost use Rattle.spline.specs.Value.{whole_of, tells, Told};

use super::check::sizes_fit;
use ieee::cut::{Cut, cut_off};
use std::num::nearest_u64_to_f64;

// Degree, count of controls, 32 controls, 38 knots. Controls past the 32nd and knots past the 38th, which no spline has, are left out.
pub fn row_of(degree: usize, controls: &[f64], knots: &[f64]) -> [f64; 72]
    ensures { result ≡ row_of degree controls.now knots.now }
{
    let mut row = [0.0f64; 72];
    row[0] = nearest_u64_to_f64(degree as u64);
    row[1] = nearest_u64_to_f64(controls.len() as u64);
    for i in 0..32 {
        row[2 + i] = number_at(controls, i);
    }
    for j in 0..38 {
        row[34 + j] = number_at(knots, j);
    }
    row
}

// Number i, and 0.0 beyond the end.
fn number_at(numbers: &[f64], i: usize) -> f64
    ensures { result ≡ slice_index_or numbers.now i nought }
{
    numbers.get(i).copied().unwrap_or(0.0)
}

// A row that tells a spline: its degree and its count of controls fit.
#[derive(Clone, Copy)]
pub(crate) struct Spline<'a> {
    pub(crate) row: &'a [f64],
    pub(crate) degree: usize,
    pub(crate) controls: usize,
    ghost sizes: { Sizes degree controls },
    ghost seventy_two: { length row.now ≡ 72 },
}

impl<'a> Spline<'a> {
    // None of a row that tells no spline's sizes, or of another length.
    pub(crate) fn read(row: &'a [f64]) -> Option<Spline<'a>>
        ensures { MatchOption result (tells row.now ≡ false) (λ s. Told row.now s.row.now s.degree s.controls) }
    {
        if row.len() != 72 {
            return None;
        }
        let degree = whole(row[0]);
        let controls = whole(row[1]);
        if sizes_fit(degree, controls) {
            Some(Spline {
                row,
                degree,
                controls,
            })
        } else {
            None
        }
    }

    pub(crate) fn control(&self, i: usize) -> f64
        requires { i < 32 }
        ensures { result ≡ control_at self.now.row.now i }
    {
        self.row[2 + i]
    }

    pub(crate) fn knot(&self, i: usize) -> f64
        requires { i < 38 }
        ensures { result ≡ knot_at self.now.row.now i }
    {
        self.row[34 + i]
    }
}

// A double that holds a whole number.
fn whole(x: f64) -> usize
    ensures { result ≡ whole_of x }
{
    match cut_off(x) {
        Cut::Index(n) => n,
        Cut::Below | Cut::Above | Cut::NotANumber => 0,
    }
}
