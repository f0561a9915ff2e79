// Bytes in memory of their own, with no allocator, and the text that is written there.

#![tactic(auto)]

pub mod bytes;
pub mod page;
