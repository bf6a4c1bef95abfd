// A job's line by value: what it asks for, or that it cannot be read.
#![tactic(auto)]

pub mod command;
pub mod line;
pub mod list;
pub mod turn;
