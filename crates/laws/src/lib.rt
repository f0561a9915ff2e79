// The laws over a whole board: who is asked and who acts, what a hand still holds, and the ruling on an act.

#![tactic(auto)]

ghost use Rattle.std.specs.Prelude.{◌≡◌};
ghost use Rattle.laws.specs.History.{act_ruling, hand, seats};
ghost use Rattle.laws.specs.Lawful.{AtMost371, EachCardOnce, OneToEachTrick, PlayedFromHand, SuitFollowed, WayOn};
ghost use Rattle.rulings.specs.Rulings.{ruling};

use auctions::Standing;
use cards::chairs::Chair;
use hands::{dealt, remaining};
use rulings::Irregularity;
use tricks::Turn;

// The asked chair and the chair acted from: the chair in turn, but declarer is asked for dummy's
// cards. Nobody is declarer until the auction is over.
pub fn seats(turn: Chair, declarer: Option<Chair>) -> (Chair, Chair)
    ensures seats { result ≡ seats turn declarer }
{
    match declarer {
        Some(declarer) if turn == declarer.partner() => (declarer, turn),
        _ => (turn, turn),
    }
}

// What a chair still holds: what it was dealt, less the cards played.
pub fn hand_left(deal: &[u8; 52], cards: &[u8], chair: Chair) -> u64
    ensures hand { result ≡ hand deal.now cards.now chair }
    ensures once { EachCardOnce }
    ensures played { PlayedFromHand }
    ensures tricks { OneToEachTrick }
    ensures followed { SuitFollowed }
{
    remaining(dealt(deal, chair), cards)
}

// The ruling on an act: a call while the auction lasts, and then a card at a turn to play.
pub fn ruling(standing: Standing, turn: Turn, act: u8) -> Result<(), Irregularity>
    ensures ruling { ruling result ≡ act_ruling standing turn.led turn.hand act }
    ensures lasts { AtMost371 }
    ensures way { WayOn }
{
    if standing.is_over() {
        turn.ruling(act)
    } else {
        standing.ruling(act)
    }
}
