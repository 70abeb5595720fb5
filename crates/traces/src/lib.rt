// Stored traces: which bytes are one, by which number the others are refused, their columns, and how cycles are stored as one.
#![tactic(auto)]

pub mod trace;
pub mod writer;
