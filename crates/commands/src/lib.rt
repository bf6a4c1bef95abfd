// Commands and the call that carries out a list of them. The Rust's `Executor::execute`, for commands that are already arranged.
#![tactic(auto)]

pub mod command;
pub mod execute;
mod play;
mod run;
pub mod step;
