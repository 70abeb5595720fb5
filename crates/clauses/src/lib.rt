// Writes that clauses are broken: names placed over a formula, each type of clause, and the requirement of a sheet.
#![tactic(auto)]

pub mod clause;
pub mod placing;
pub mod requirement;
