// Writes the nodes of an emitted formula: those that all sheets share, drawings told by other formulas, and the sheet's own nodes.
#![tactic(auto)]

pub mod copy;
pub mod drawing;
pub mod shared;
