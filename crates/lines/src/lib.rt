// The lines of a text and the numbers of a line, for every program that reads one.
#![tactic(auto)]

pub mod field;
pub mod text;
