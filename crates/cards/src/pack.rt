// The 52 cards of the pack: 13 times the suit and the rank, from 0 for the two to 12 for the ace. By rule
// each is a byte, as a player answers it and a deal counts it.
ghost use Rattle.std.specs.Prelude.{◌≡◌};
ghost use Rattle.cards.specs.Pack.{card_of, suit_of, rank_of};

use crate::suits::Suit;

// The card of a suit and a rank; no rank is above 12.
pub fn card(suit: Suit, rank: u8) -> Option<u8>
    ensures card { result ≡ card_of suit rank }
{
    if rank > 12 {
        return None;
    }
    Some(13 * u8::from(suit) + rank)
}

// The suit of a card; no card is above 51.
pub fn suit(card: u8) -> Option<Suit>
    ensures suit { result ≡ suit_of card }
{
    Suit::try_from(card / 13).ok()
}

// The rank of a card; no card is above 51.
pub fn rank(card: u8) -> Option<u8>
    ensures rank { result ≡ rank_of card }
{
    if card > 51 {
        return None;
    }
    Some(card % 13)
}
