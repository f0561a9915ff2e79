// What the values of a game's tags say: a board number, a dealer, a vulnerability and a deal.

#![tactic(auto)]

pub mod deals;
pub mod letters;
pub mod numbers;
