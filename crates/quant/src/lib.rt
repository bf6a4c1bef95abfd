// Quantities, answers and alignment: what the executor and the sampler are written in. The Rust's src/quant.rs.
#![tactic(auto)]

pub mod aligned;
pub mod complex;
pub mod judge;
pub mod phaser;
pub mod quantity;
pub mod refusal;
pub mod settings;
