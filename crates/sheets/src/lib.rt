// Score sheets in lent memory, rules of comparison, and results.

#![tactic(auto)]

pub mod comparisons;
pub mod rows;
pub mod sheet;
