// Stores: pairs of any kind of key and value.
#![tactic(auto)]

pub mod fault;
pub mod store;
pub mod tally;
pub mod text;
