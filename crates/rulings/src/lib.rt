// Rulings on what a player answers: an act is accepted, or it is refused for an irregularity.

#![tactic(auto)]

ghost use Rattle.std.specs.Prelude.{◌≡◌};
ghost use Rattle.rulings.specs.Rulings.{number};

use std::error::Error;
use std::fmt;

// What is wrong with a call or a card, in the order of the questions.
#[derive(Clone, Copy, Debug, PartialEq, Eq)]
pub enum Irregularity {
    NoSuchAct,
    InsufficientBid,
    InadmissibleDouble,
    InadmissibleRedouble,
    CardNotHeld,
    Revoke,
}

impl Irregularity {
    // The number of the question that was answered no: by rule a player is told that number.
    pub fn number(self) -> u8
        ensures number { result ≡ number self }
    {
        match self {
            Irregularity::NoSuchAct => 8,
            Irregularity::InsufficientBid => 9,
            Irregularity::InadmissibleDouble => 10,
            Irregularity::InadmissibleRedouble => 11,
            Irregularity::CardNotHeld => 12,
            Irregularity::Revoke => 13,
        }
    }
}

// The irregularity in words, for people: no contract says what is printed.
impl fmt::Display for Irregularity {
    fn fmt<W: fmt::Write>(&self, f: &mut fmt::Formatter<W>) -> fmt::Result {
        f.write_str(match self {
            Irregularity::NoSuchAct => "there is no such call or card",
            Irregularity::InsufficientBid => "the bid is not above the last bid",
            Irregularity::InadmissibleDouble => {
                "the last call other than Pass is no bid by an opponent"
            }
            Irregularity::InadmissibleRedouble => {
                "the last call other than Pass is no double by an opponent"
            }
            Irregularity::CardNotHeld => "the hand does not hold the card",
            Irregularity::Revoke => "the hand holds a card of the suit led",
        })
    }
}

impl Error for Irregularity {}
