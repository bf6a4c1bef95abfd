// A number of a job: 16 lowercase hex digits, the double's bits; or a decimal, rounded once.
#![tactic(auto)]

pub mod digits;
pub mod number;
pub mod print;
pub mod scale;
pub mod significand;
