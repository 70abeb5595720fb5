// Reads the tokens and propositions of a text, and writes the nodes of what was read.
#![tactic(auto)]

pub mod leaf;
pub mod nodes;
pub mod proposition;
pub mod words;
