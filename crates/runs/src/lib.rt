// Whole runs over a new register.
#![tactic(auto)]

pub mod over;
pub mod run;
