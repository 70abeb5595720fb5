// Writes of a drafted formula what its root reaches.
#![tactic(auto)]

pub mod keep;
pub mod mark;
