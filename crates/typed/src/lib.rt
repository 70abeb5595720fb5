// Typed sheets: what a tree says, and the stored sheet that it is.
#![tactic(auto)]

pub mod draft;
