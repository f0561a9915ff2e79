// Which boards are finished.
ghost use Rattle.std.specs.Prelude.{◌≡◌};
ghost use Rattle.std.specs.Option.{option_map};
ghost use Rattle.finished.specs.Finished.{are_below, board_as, is_complete};
ghost use Rattle.finished.specs.Histories.{checked, history};

use crate::FinishedBoard;
use auctions::Auction;
use cards::boards::{dealer_of, vulnerability_of};
use cards::deals::is_thirteen_each;
use text::bytes::Bytes;

fn are_below(most: u8, numbers: &[u8]) -> bool
    ensures below { result ≡ are_below most numbers.now }
{
    numbers.iter().all(|number| *number < most)
}

// Do these calls and cards finish the board?
fn is_complete(number: u8, deal: &[u8; 52], calls: &[u8], cards: &[u8]) -> bool
    ensures complete { result ≡ is_complete (board_as number deal.now calls.now cards.now) }
{
    let auction = Auction {
        dealer: dealer_of(number),
        calls,
    };
    let all = match auction.declarer() {
        Some(_) => 52,
        None => 0,
    };
    number >= 1
        && is_thirteen_each(deal)
        && calls.len() <= 319
        && are_below(38, calls)
        && are_below(52, cards)
        && auction.standing().is_over()
        && cards.len() == all
}

impl FinishedBoard {
    // The board of a number with its deal, calls and cards, if they finish it.
    pub fn new(number: u8, deal: &[u8; 52], calls: &[u8], cards: &[u8]) -> Option<FinishedBoard>
        ensures board { option_map history result ≡ checked (board_as number deal.now calls.now cards.now) }
    {
        if !is_complete(number, deal, calls, cards) {
            return None;
        }
        Some(FinishedBoard {
            number,
            dealer: dealer_of(number),
            vulnerability: vulnerability_of(number),
            deal: *deal,
            calls: Bytes::from_slice(calls),
            cards: Bytes::from_slice(cards),
        })
    }
}
