// The register: a machine over a source and a store, in memory that is reserved before.
#![tactic(auto)]

mod lists;
pub mod register;
