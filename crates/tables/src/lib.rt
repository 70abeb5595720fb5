// Interval tables of a sheet's nodes, in lent words: row b of node i is word 64 * i + b, a proposition's column is word 64 * i.
#![tactic(auto)]

pub mod column;
pub mod fill;
pub mod line;
pub mod words;
