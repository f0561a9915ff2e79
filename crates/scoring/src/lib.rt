// The score of a contract.

#![tactic(auto)]

pub mod contracts;
pub mod scores;
