// Plain calculations for the programs that compare: slow, by the definitions, and with nothing taken from what they are compared with.
#![tactic(auto)]

pub mod classes;
pub mod plans;
pub mod tables;
