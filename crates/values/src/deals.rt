// Deals: the value of a Deal tag, laid out card by card.
ghost use Rattle.std.specs.Prelude.{◌≡◌, ℕ, ◌<◌, false, List, [], ◌∷◌, Some, IfSome, ◌≢◌};
ghost use Rattle.tags.specs.Views.{found};
ghost use Rattle.values.specs.Deals.{card_named, cards_placed, deal_read};
ghost use Rattle.values.specs.Cursors.{Reads, outcome, start, layout, laid_as, done, filled};

use crate::letters::{chair_named, rank_named};
use cards::chairs::Chair;
use cards::deals::is_thirteen_each;
use cards::pack::card;
use cards::suits::Suit;
use faults::Fault;
use tags::Found;

// In place of a chair, where no card has been laid: by rule a deal is 52 bytes, and 4 is no chair.
const NOBODY: u8 = 4;

// The card of a suit and a rank's letter.
fn card_named(suit: Suit, letter: char) -> Option<u8>
    ensures card { result ≡ card_named suit letter }
    ensures small { IfSome result (λ c. c < 52) }
{
    card(suit, rank_named(letter)?)
}

// How far a deal is read, in one pass over its bytes: how many hands come after this one, whose hand it
// is, at which suit it stands, and whether a card has repeated. Reading goes on after that, since a deal
// that is malformed further on is refused as malformed.
#[derive(Clone, Copy)]
struct Cursor {
    left: u8,
    chair: Chair,
    suit: Suit,
    repeated: bool,
}

impl Cursor {
    // Reads a byte more of the deal, and lays out the card that it names.
    fn read(self, byte: u8, laid: &mut [u8; 52]) -> Option<Cursor>
        ensures reads { Reads byte self laid.old result laid.new }
    {
        match byte {
            b' ' => self.next_hand(),
            b'.' => self.next_suit(),
            _ => self.lay(byte, laid),
        }
    }

    // Goes on to the hand of the next chair.
    fn next_hand(self) -> Option<Cursor>
        ensures reads { (d : List ℕ) → Reads 32 self d result d }
    {
        if self.left == 0 || self.suit.lower().is_some() {
            return None;
        }
        Some(Cursor {
            left: self.left - 1,
            chair: self.chair.next(),
            suit: Suit::Spades,
            ..self
        })
    }

    // Goes on to the next lower suit of the hand.
    fn next_suit(self) -> Option<Cursor>
        ensures reads { (d : List ℕ) → Reads 46 self d result d }
    {
        let suit = self.suit.lower()?;
        Some(Cursor { suit, ..self })
    }

    // Lays out a card of the suit.
    fn lay(self, byte: u8, laid: &mut [u8; 52]) -> Option<Cursor>
        requires { (byte ≢ 32) × (byte ≢ 46) }
        ensures reads { Reads byte self laid.old result laid.new }
    {
        let card = usize::from(card_named(self.suit, char::from(byte))?);
        let repeated = self.repeated || laid[card] != NOBODY;
        laid[card] = self.chair.into();
        Some(Cursor { repeated, ..self })
    }

    // Ends the deal, which has to stand in the last suit of the last hand: did a card repeat?
    fn finish(self) -> Option<bool>
        ensures ends { (d : List ℕ) → laid_as result d ≡ outcome (Some self) d [] }
    {
        if self.left != 0 || self.suit.lower().is_some() {
            return None;
        }
        Some(self.repeated)
    }
}

// Lays out the cards that four hands name, from the chair `first` on: does a card repeat?
fn lay_out_hands(text: &[u8], first: Chair, laid: &mut [u8; 52]) -> Option<bool>
    ensures laid { laid_as result laid.new ≡ outcome (Some (start first)) laid.old text.now }
{
    let mut cursor = Cursor {
        left: 3,
        chair: first,
        suit: Suit::Spades,
        repeated: false,
    };
    for byte in text {
        cursor = cursor.read(*byte, laid)?;
    }
    cursor.finish()
}

// Lays out the cards that the value of a Deal tag names: does a card repeat?
fn lay_out(value: &[u8], laid: &mut [u8; 52]) -> Option<bool>
    ensures laid { laid_as result laid.new ≡ layout laid.old false (cards_placed value.now) }
{
    let [letter, b':', hands @ ..] = value else {
        return None;
    };
    let first = chair_named(char::from(*letter))?;
    lay_out_hands(hands, first, laid)
}

// Layer 3's questions on a deal: byte c of the answer names the chair that gets the card c.
fn deal_in(tag: Found) -> Result<[u8; 52], Fault>
    ensures deal { result ≡ deal_read (found tag.entry) }
{
    let mut laid = [NOBODY; 52];
    let repeated = lay_out(tag.value, &mut laid).ok_or(Fault::MalformedDeal { line: tag.line })?;
    if repeated {
        return Err(Fault::RepeatedCard { line: tag.line });
    }
    if !is_thirteen_each(&laid) {
        return Err(Fault::UnevenHands { line: tag.line });
    }
    Ok(laid)
}

// Layer 3's questions on a deal. Byte c of `deal` then names the chair that gets the card c; a refusal
// leaves the bytes as they were.
pub fn read_deal(tag: Found, deal: &mut [u8; 52]) -> Result<(), Fault>
    ensures answer { result ≡ done (deal_read (found tag.entry)) }
    ensures bytes { deal.new ≡ filled deal.old (deal_read (found tag.entry)) }
{
    *deal = deal_in(tag)?;
    Ok(())
}
