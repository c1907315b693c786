// Trip references: the alphabet, check characters, templates and names, and what refuses them.
#![tactic(auto)]

mod alphabet;
pub mod check;
pub mod fault;
pub mod name;
mod naming;
mod parts;
mod slot;
pub mod template;
mod validate;
