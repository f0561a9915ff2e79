// What a finished board came to.
ghost use Rattle.std.specs.Prelude.{◌≡◌, ◌≤◌, [], length};
ghost use Rattle.std.specs.Option.{option_map};
ghost use Rattle.finished.specs.Finished.{board_of};
ghost use Rattle.finished.specs.Histories.{history};
ghost use Rattle.finished.specs.Outcomes.{came_to, told};

use crate::{FinishedBoard, Outcome};
use auctions::Auction;
use cards::boards::Vulnerability;
use scoring::scores::score_to_ns;
use tricks::Progress;

// What these calls and cards come to.
fn outcome_of(auction: Auction, vulnerability: Vulnerability, cards: &[u8]) -> Option<Outcome>
    requires { length cards.now ≤ 52 }
    ensures outcome { option_map told result ≡ came_to (board_of 0 auction.entry.dealer vulnerability [] auction.entry.calls.now cards.now) }
{
    // By rule of this project a contract is taken apart by `let Some .. else`.
    let Some(contract) = auction.standing().contract() else {
        return None;
    };
    let declarer = auction.declarer()?;
    // Never more than 13, so `as` keeps them; `try_from` would add a refusal that never comes.
    let tricks = Progress::of(contract.denomination, declarer, cards).won as u8;
    let score = score_to_ns(contract, declarer, vulnerability, tricks)?;
    Some(Outcome {
        contract,
        declarer,
        tricks,
        score,
    })
}

impl FinishedBoard {
    // What the board came to; nothing if it was passed out.
    pub fn outcome(&self) -> Option<Outcome>
        ensures outcome { option_map told result ≡ came_to (history self.now) }
    {
        let auction = Auction {
            dealer: self.dealer,
            calls: self.calls.as_slice(),
        };
        outcome_of(auction, self.vulnerability, self.cards.as_slice())
    }
}
