// Calls: Pass, Double, Redouble, and the 35 bids in rising order. By rule each is a byte and no enum: a
// player answers with any byte, and that one above 37 is no call is a ruling.
ghost use Rattle.std.specs.Prelude.{◌≡◌};
ghost use Rattle.cards.specs.Calls.{bid_of, is_bid, level_of, denomination_of};

use crate::suits::Denomination;

pub const PASS: u8 = 0;

pub const DOUBLE: u8 = 1;

pub const REDOUBLE: u8 = 2;

// Is the call a bid?
pub fn is_bid(call: u8) -> bool
    ensures bid { result ≡ is_bid call }
{
    (3..=37).contains(&call)
}

// The bid of a level, 1 to 7, and a denomination.
pub fn bid(level: u8, denomination: Denomination) -> Option<u8>
    ensures bid { result ≡ bid_of level denomination }
{
    if !(1..=7).contains(&level) {
        return None;
    }
    Some(3 + 5 * (level - 1) + u8::from(denomination))
}

// The level of a call that is a bid.
pub fn level(call: u8) -> Option<u8>
    ensures level { result ≡ level_of call }
{
    if !is_bid(call) {
        return None;
    }
    Some((call - 3) / 5 + 1)
}

// The denomination of a call that is a bid.
pub fn denomination(call: u8) -> Option<Denomination>
    ensures denomination { result ≡ denomination_of call }
{
    if !is_bid(call) {
        return None;
    }
    Denomination::try_from((call - 3) % 5).ok()
}
