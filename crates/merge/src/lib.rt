// Pulses that fall together are added up. The Rust's `ListBuilder::build`, and the merging half of `merge_and_sample`.
#![tactic(auto)]

pub mod sum;
pub mod taking;
pub mod work;
