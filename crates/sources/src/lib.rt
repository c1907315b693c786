// Sources: where the numbers of names come from.
#![tactic(auto)]

pub mod chooser;
pub mod fault;
pub mod generator;
mod livemap;
pub mod roll;
pub mod source;
mod subcounters;
pub mod table;
