// Reads the formulas of a text, piece after piece, and writes their nodes as they are read.
#![tactic(auto)]

pub mod formula;
pub mod piece;
