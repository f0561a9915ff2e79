// What an auction comes to: contract and declarer.
ghost use Rattle.std.specs.Prelude.{◌≡◌, true};
ghost use Rattle.std.specs.Option.{option_map};
ghost use Rattle.auctions.specs.Laws.{Declares};
ghost use Rattle.auctions.specs.Outcomes.{contract_of, declarer_of, doubling_by, first_to_name, terms};
ghost use Rattle.cards.specs.Calls.{is_bid};

use crate::{Auction, Made, Standing};
use cards::calls::{DOUBLE, REDOUBLE, denomination, level};
use cards::chairs::Chair;
use scoring::contracts::{Contract, Doubling};

// How far a contract is doubled, by the last call other than Pass.
fn doubling(action: Option<Made>) -> Doubling
    ensures doubling { result ≡ doubling_by action }
{
    match action {
        Some(Made { call: DOUBLE, .. }) => Doubling::Doubled,
        Some(Made { call: REDOUBLE, .. }) => Doubling::Redoubled,
        _ => Doubling::Undoubled,
    }
}

impl Standing {
    // The contract that the last bid and its doubling make; none if nobody has bid.
    pub fn contract(self) -> Option<Contract>
        ensures contract { option_map terms result ≡ contract_of self }
    {
        let bid = self.bid?;
        Contract::new(
            level(bid.call)?,
            denomination(bid.call)?,
            doubling(self.action),
        )
    }
}

impl Auction<'_> {
    // The first chair that names the denomination of a bid, of the side that made it.
    fn first_to_name(&self, bid: Made) -> Option<Chair>
        requires { is_bid bid.call ≡ true }
        ensures chair { result ≡ first_to_name bid self.now.dealer self.now.calls.now }
    {
        let named = denomination(bid.call)?;
        // A loop, since a chain would have to count the chairs along with the calls.
        let mut turn = self.dealer;
        for call in self.calls {
            if denomination(*call).is_some_and(|other| other == named) && turn.same_side(bid.by) {
                return Some(turn);
            }
            turn = turn.next();
        }
        None
    }

    // The declarer of the calls so far: of the side that made the last bid, the chair that first bid
    // its denomination. None if nobody has bid.
    pub fn declarer(&self) -> Option<Chair>
        ensures declarer { result ≡ declarer_of self.now.dealer self.now.calls.now }
        ensures declares { Declares }
    {
        self.first_to_name(self.standing().bid?)
    }
}
