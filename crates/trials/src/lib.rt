// Trials from outside the crates that they try: the stores against a map and under a key kind that they do not know; sources; published
// names; lines.
#![tactic(auto)]

#[cfg(test)]
mod drawn;
#[cfg(test)]
mod lines;
pub mod operator;
#[cfg(test)]
mod published;
#[cfg(test)]
mod tests;
