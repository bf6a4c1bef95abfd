// The crosstalk sheet: read and printed. Document 01, "The sheet".
#![tactic(auto)]

pub mod line;
pub mod names;
pub mod print;
pub mod put;
pub mod read;
pub mod state;
