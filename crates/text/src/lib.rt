// Reads a typed sheet and writes it as a stored one.
#![tactic(auto)]

pub mod clause;
pub mod part;
pub mod read;
pub mod sheet;
