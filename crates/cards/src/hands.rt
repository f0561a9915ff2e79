// Hands. By rule a hand is a number of 64 bits, whose bit c is set when it holds the card c.
ghost use Rattle.std.specs.Prelude.{◌≡◌};
ghost use Rattle.cards.specs.Chairs.{code};
ghost use Rattle.cards.specs.Hands.{holds, dealt};

use crate::chairs::Chair;

const BITS: u8 = 64;

// Does the hand hold the card?
pub fn holds(hand: u64, card: u8) -> bool
    ensures holds { result ≡ holds hand card }
{
    card < BITS && (hand >> card) & 1 == 1
}

// The hand that a deal gives a chair: byte c of the deal names the chair that gets the card c.
pub fn dealt(deal: &[u8; 52], chair: Chair) -> u64
    ensures hand { result ≡ dealt deal.now (code chair) }
{
    let code = u8::from(chair);
    let mut hand = 0;
    for receiver in deal.iter().rev() {
        hand = 2 * hand + u64::from(*receiver == code);
    }
    hand
}
