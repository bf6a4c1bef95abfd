// Commands and the state that they change. The Rust's src/executor.rs.
#![tactic(auto)]

pub mod osc;
