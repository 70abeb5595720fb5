// One node more of an emitted formula that is being written.
#![tactic(auto)]

pub mod node;
