// What is asked of a register and what it answers, its faults, the texts that it binds, and the law over its runs.
#![tactic(auto)]

pub mod call;
pub mod fault;
pub mod laws;
pub mod text;
