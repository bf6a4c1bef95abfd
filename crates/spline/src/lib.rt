// The spline shape: what a spline may be, its row of 72 numbers, and its value at a point by the de Boor recurrence. The Rust takes its splines from
// the crate `bspline`.
#![tactic(auto)]

pub mod check;
pub mod over;
pub mod row;
pub mod same;
mod tame;
mod triangle;
pub mod value;
