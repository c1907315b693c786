// Whole inputs answered: the call that the program makes.
#![tactic(auto)]

mod lines;
pub mod memory;
mod opening;
pub mod serve;
