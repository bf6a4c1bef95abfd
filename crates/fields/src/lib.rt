// The words of a job's line, and what they say: names, numbers, whole numbers, each behind a key.
#![tactic(auto)]

pub mod pair;
pub mod value;
pub mod words;
