// The shapes: a shape's value, the three parts of an envelope, and an envelope's points. The Rust's src/shape.rs and `get_envelope`.
#![tactic(auto)]

pub mod envelope;
pub mod hann;
pub mod parts;
mod segment;
