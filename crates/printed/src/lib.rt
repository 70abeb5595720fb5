// What the programs print, from the bytes that they read.
#![tactic(auto)]

pub mod formula;
pub mod line;
pub mod page;
pub mod sheet;
pub mod wall;
