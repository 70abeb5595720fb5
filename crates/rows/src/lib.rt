// Sets of cycles as 64-bit words: bit e of a word says whether cycle e belongs to the set.
// Row b of a test on intervals is the set of the last cycles e of the intervals [b,e] that pass.
#![tactic(auto)]

pub mod count;
pub mod cut;
mod cycles;
pub mod gap;
pub mod join;
pub mod mask;
pub mod shape;
