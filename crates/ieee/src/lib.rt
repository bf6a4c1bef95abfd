// What the machine lacks, on doubles: operations of IEEE 754-2019 for which there is no operator.
#![tactic(auto)]

pub mod ceil;
pub mod cut;
pub mod exp2;
pub mod finite;
