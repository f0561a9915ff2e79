// Tricks: which card is lawful, who wins a trick, and how many tricks each side wins.

#![tactic(auto)]

ghost use Rattle.std.specs.Prelude.{◌≡◌, ◌/◌, ◌≤◌, length};
ghost use Rattle.rulings.specs.Rulings.{ruling};
ghost use Rattle.tricks.specs.Cards.{card_ruling, follows, is_of, lowest_legal};
ghost use Rattle.tricks.specs.Laws.{HighestWins, Legal};
ghost use Rattle.tricks.specs.Tricks.{beats, is_trump, led, progress, winner};

use cards::chairs::Chair;
use cards::hands::holds;
use cards::pack;
use cards::suits::{Denomination, Suit};
use hands::{is_void, lowest, lowest_of};
use rulings::Irregularity;

// Is the card of the suit?
fn is_of(suit: Suit, card: u8) -> bool
    ensures suit { result ≡ is_of suit card }
{
    pack::suit(card) == Some(suit)
}

// A chair's turn to play: the hand it plays from, and the suit led; none at a lead.
#[derive(Clone, Copy)]
pub struct Turn {
    pub led: Option<Suit>,
    pub hand: u64,
}

impl Turn {
    // Does the card follow suit, as far as it has to?
    fn follows(self, card: u8) -> bool
        ensures follows { result ≡ follows self.led self.hand card }
    {
        self.led
            .is_none_or(|suit| is_of(suit, card) || is_void(self.hand, suit))
    }

    // The ruling on a card played from the hand.
    pub fn ruling(self, card: u8) -> Result<(), Irregularity>
        ensures ruling { ruling result ≡ card_ruling self.led self.hand card }
    {
        if card >= 52 {
            return Err(Irregularity::NoSuchAct);
        }
        if !holds(self.hand, card) {
            return Err(Irregularity::CardNotHeld);
        }
        if !self.follows(card) {
            return Err(Irregularity::Revoke);
        }
        Ok(())
    }

    // The lowest card of the hand, by its number, that is lawful; none only if the hand is empty.
    pub fn lowest_legal(self) -> Option<u8>
        ensures card { result ≡ lowest_legal self.led self.hand }
        ensures legal { Legal }
    {
        match self.led {
            Some(suit) if !is_void(self.hand, suit) => lowest_of(self.hand, suit),
            _ => lowest(self.hand),
        }
    }
}

fn is_trump(trumps: Denomination, card: u8) -> bool
    ensures trump { result ≡ is_trump trumps card }
{
    matches!(trumps, Denomination::Trumps(suit) if is_of(suit, card))
}

// Does the card beat the best card before it: higher in its suit, or a trump on another?
// Suits are compared by number, since cards are bytes, and those above 51 have numbers but no suits.
fn beats(trumps: Denomination, best: u8, card: u8) -> bool
    ensures beats { result ≡ beats trumps best card }
{
    if best / 13 == card / 13 {
        best < card
    } else {
        is_trump(trumps, card)
    }
}

// The cards of a trick, of which the leader played the first.
#[derive(Clone, Copy)]
pub struct Trick<'a> {
    pub leader: Chair,
    pub cards: &'a [u8],
}

impl Trick<'_> {
    // The chair that wins the trick.
    pub fn winner(&self, trumps: Denomination) -> Chair
        ensures winner { result ≡ winner trumps self.now.leader self.now.cards.now }
        ensures highest { HighestWins }
    {
        let [first, rest @ ..] = self.cards else {
            return self.leader;
        };
        let mut by = self.leader;
        let mut best = *first;
        let mut turn = self.leader;
        for card in rest {
            turn = turn.next();
            if beats(trumps, best, *card) {
                by = turn;
                best = *card;
            }
        }
        by
    }
}

// The suit led to the trick in progress; none if it has no card yet.
pub fn led(cards: &[u8]) -> Option<Suit>
    ensures suit { result ≡ led cards.now }
{
    pack::suit(*cards.chunks_exact(4).remainder().first()?)
}

// Where play stands: who leads the trick in progress, and how many tricks declarer's side has won.
#[derive(Clone, Copy)]
pub struct Progress {
    pub leader: Chair,
    pub won: usize,
}

impl Progress {
    // After these cards, of which the chair after declarer led the first.
    pub fn of(trumps: Denomination, declarer: Chair, cards: &[u8]) -> Progress
        ensures progress { result ≡ progress trumps declarer cards.now }
        ensures few { result.won ≤ length cards.now / 4 }
    {
        let mut leader = declarer.next();
        let mut won = 0;
        for cards in cards.chunks_exact(4) {
            leader = Trick { leader, cards }.winner(trumps);
            won += usize::from(leader.same_side(declarer));
        }
        Progress { leader, won }
    }
}
