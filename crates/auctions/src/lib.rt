// The auction: which call is lawful, when it ends, and what it comes to.

#![tactic(auto)]

ghost use Rattle.std.specs.Prelude.{◌≡◌};
ghost use Rattle.auctions.specs.Auctions.{call_ruling, called, is_over, opponents_call, standing, start};
ghost use Rattle.auctions.specs.Laws.{AtMost319, DoubledByOpponents, Lasts, PassIsLawful, Steps, Turns};
ghost use Rattle.rulings.specs.Rulings.{ruling};

use cards::calls::{DOUBLE, PASS, REDOUBLE, is_bid};
use cards::chairs::Chair;
use rulings::Irregularity;

pub mod outcome;

// The calls of an auction, of which the dealer made the first.
#[derive(Clone, Copy)]
pub struct Auction<'a> {
    pub dealer: Chair,
    pub calls: &'a [u8],
}

// A call with the chair that made it.
#[derive(Clone, Copy)]
pub struct Made {
    pub by: Chair,
    pub call: u8,
}

// Where an auction stands: the chair in turn, the last bid, the last call other than Pass, and how
// many passes end the calls, of which four are enough to know.
#[derive(Clone, Copy)]
pub struct Standing {
    pub turn: Chair,
    pub bid: Option<Made>,
    pub action: Option<Made>,
    pub passes: u8,
}

impl Auction<'_> {
    // Where the auction stands after these calls.
    pub fn standing(&self) -> Standing
        ensures standing { result ≡ standing self.now.dealer self.now.calls.now }
        ensures turns { Turns }
        ensures lasts { Lasts }
        ensures doubled { DoubledByOpponents }
    {
        // A loop, since a fold copies the whole standing at each call, at two to four times the cost.
        let mut standing = Standing::start(self.dealer);
        for call in self.calls {
            standing = standing.after(*call);
        }
        standing
    }
}

impl Standing {
    // Before the first call. Every lawful auction goes on from here call by call, a Pass is lawful at
    // each of them, and it has ended after 319.
    pub fn start(dealer: Chair) -> Standing
        ensures standing { result ≡ start dealer }
        ensures steps { Steps }
        ensures pass { PassIsLawful }
        ensures ends { AtMost319 }
    {
        Standing {
            turn: dealer,
            bid: None,
            action: None,
            passes: 0,
        }
    }

    // After one more call.
    pub fn after(self, call: u8) -> Standing
        ensures standing { result ≡ called self call }
    {
        let made = Some(Made {
            by: self.turn,
            call,
        });
        Standing {
            turn: self.turn.next(),
            bid: if is_bid(call) { made } else { self.bid },
            action: if call == PASS { self.action } else { made },
            passes: if call == PASS {
                self.passes.saturating_add(1).min(4)
            } else {
                0
            },
        }
    }

    // Has the auction ended: by four passes with no bid, or by three after a bid?
    pub fn is_over(self) -> bool
        ensures over { result ≡ is_over self }
    {
        match self.bid {
            None => self.passes >= 4,
            Some(_) => self.passes >= 3,
        }
    }

    // The last call other than Pass, if an opponent of the chair in turn made it.
    fn opponents_call(self) -> Option<u8>
        ensures call { result ≡ opponents_call self.turn self.action }
    {
        self.action
            .filter(|made| !self.turn.same_side(made.by))
            .map(|made| made.call)
    }

    // The ruling on a call by the chair in turn.
    pub fn ruling(self, call: u8) -> Result<(), Irregularity>
        ensures ruling { ruling result ≡ call_ruling self call }
    {
        match call {
            38.. => Err(Irregularity::NoSuchAct),
            3.. if self.bid.is_some_and(|bid| call <= bid.call) => {
                Err(Irregularity::InsufficientBid)
            }
            DOUBLE if !self.opponents_call().is_some_and(is_bid) => {
                Err(Irregularity::InadmissibleDouble)
            }
            REDOUBLE if self.opponents_call() != Some(DOUBLE) => {
                Err(Irregularity::InadmissibleRedouble)
            }
            _ => Ok(()),
        }
    }
}
