// What every program reads and writes: a sheet and a trace in its input, lines of words and numbers, and lent bytes up to a length.
#![tactic(auto)]

pub mod answer;
pub mod input;
pub mod lines;
pub mod output;
