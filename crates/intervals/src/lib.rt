// The intervals of one placement of names, as three arrays of rows, and the first unanswered place among them.
#![tactic(auto)]

pub mod gather;
pub mod search;
