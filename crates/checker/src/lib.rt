// The check and its verdict, the clauses that fail; the table.
#![tactic(auto)]

pub mod check;
pub mod failing;
pub mod table;
