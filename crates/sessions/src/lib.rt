// Sessions: command lines in, report lines out, over one register.
#![tactic(auto)]

pub mod end;
pub mod line;
pub mod opening;
pub mod perform;
pub mod session;
