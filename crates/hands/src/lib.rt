// Hands. A hand is a number whose bit c is set when it holds the card c.

#![tactic(auto)]

ghost use Rattle.std.specs.Prelude.{◌≡◌, ◌+◌, ◌<◌, ◌≤◌};
ghost use Rattle.cards.specs.Chairs.{code};
ghost use Rattle.cards.specs.Hands.{dealt};
ghost use Rattle.hands.specs.Hands.{is_void, lowest, lowest_from, lowest_of, remaining, without};
ghost use Rattle.hands.specs.Laws.{Deals, Lowest, Remains};

use cards::chairs::Chair;
use cards::hands;
use cards::hands::holds;
use cards::suits::Suit;

// The thirteen cards of the lowest suit.
const CLUBS: u64 = 0x1fff;

// The hand that a deal gives a chair: byte c of the deal names the chair that gets the card c. It asks
// crate cards, and adds the law of what is dealt, whose proof each of that crate's edits would repeat.
pub fn dealt(deal: &[u8; 52], chair: Chair) -> u64
    ensures hand { result ≡ dealt deal.now (code chair) }
    ensures deals { Deals }
{
    hands::dealt(deal, chair)
}

// The hand without the card.
pub fn without(hand: u64, card: u8) -> u64
    ensures hand { result ≡ without hand card }
{
    if holds(hand, card) {
        hand - (1 << card)
    } else {
        hand
    }
}

// What remains of a hand when the cards are gone.
pub fn remaining(hand: u64, cards: &[u8]) -> u64
    ensures hand { result ≡ remaining hand cards.now }
    ensures remains { Remains }
{
    cards.iter().fold(hand, |left, card| without(left, *card))
}

// Does the hand hold no card of the suit?
pub fn is_void(hand: u64, suit: Suit) -> bool
    ensures void { result ≡ is_void hand suit }
{
    (hand >> (13 * u8::from(suit))) & CLUBS == 0
}

// The lowest card that the hand holds among so many from one on.
fn lowest_from(hand: u64, first: u8, cards: u8) -> Option<u8>
    requires within { first + cards ≤ 64 }
    requires shift { first < 64 }
    ensures card { result ≡ lowest_from hand first cards }
{
    // A search from card to card may be unrolled into hundreds of steps where it is called.
    let lacked = (hand >> first).trailing_zeros() as u8;
    (lacked < cards).then_some(first + lacked)
}

// The lowest card of a hand, by its number.
pub fn lowest(hand: u64) -> Option<u8>
    ensures card { result ≡ lowest hand }
    ensures lowest { Lowest }
{
    lowest_from(hand, 0, 52)
}

// The lowest card of a hand in a suit.
pub fn lowest_of(hand: u64, suit: Suit) -> Option<u8>
    ensures card { result ≡ lowest_of hand suit }
{
    lowest_from(hand, 13 * u8::from(suit), 13)
}
