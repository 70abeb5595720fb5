// The first broken place of a clause, over tables in the lent words.
#![tactic(auto)]

pub mod task;
pub mod walk;
