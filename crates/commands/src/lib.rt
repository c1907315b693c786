// Lines of a session read as commands, and why a line is refused.
#![tactic(auto)]

pub mod command;
pub mod fault;
mod form;
mod number;
pub mod opening;
pub mod reading;
mod word;
mod words;
