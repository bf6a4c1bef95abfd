// Pulses as they are stored: envelopes, bins, amplitudes, and the list of a channel. The Rust's src/pulse.rs, up to `ListBuilder::push`.
#![tactic(auto)]

pub mod bin;
pub mod envelope;
pub mod list;
pub mod weight;
