// The codes of the game: chairs, suits, denominations, cards, hands, calls, boards and deals.

#![tactic(auto)]

pub mod boards;
pub mod calls;
pub mod chairs;
pub mod codes;
pub mod deals;
pub mod hands;
pub mod pack;
pub mod suits;
