// What a deal file is refused for.

#![tactic(auto)]

ghost use Rattle.std.specs.Prelude.{◌≡◌};
ghost use Rattle.faults.specs.Faults.{layer, number, offset};

use std::error::Error;
use std::fmt;

// The faults in the order of the questions that find them. Where a line is at fault, `line` is the
// offset at which it starts.
#[derive(Clone, Copy, Debug, PartialEq, Eq)]
pub enum Fault {
    FileTooLong,
    LineTooLong { line: usize },
    UnprintableByte { line: usize },
    MalformedTag { line: usize },
    TagNotOnce,
    NoBoardNumber { line: usize },
    WrongDealer { line: usize },
    WrongVulnerability { line: usize },
    MalformedDeal { line: usize },
    RepeatedCard { line: usize },
    UnevenHands { line: usize },
}

impl Fault {
    // The layer of the reader that found it: 1 lines, 2 tags, 3 values. Layers and questions have numbers
    // by rule, for whoever is told of a fault; code asks for the case.
    pub fn layer(self) -> u8
        ensures layer { result ≡ layer self }
    {
        match self {
            Fault::FileTooLong | Fault::LineTooLong { .. } | Fault::UnprintableByte { .. } => 1,
            Fault::MalformedTag { .. } | Fault::TagNotOnce => 2,
            _ => 3,
        }
    }

    // The number of the question that it fails.
    pub fn number(self) -> u8
        ensures number { result ≡ number self }
    {
        match self {
            Fault::FileTooLong => 20,
            Fault::LineTooLong { .. } => 21,
            Fault::UnprintableByte { .. } => 22,
            Fault::MalformedTag { .. } => 24,
            Fault::TagNotOnce => 25,
            Fault::NoBoardNumber { .. } => 26,
            Fault::WrongDealer { .. } | Fault::WrongVulnerability { .. } => 27,
            Fault::MalformedDeal { .. } => 28,
            Fault::RepeatedCard { .. } => 29,
            Fault::UnevenHands { .. } => 30,
        }
    }

    // Where the line at fault starts, 0 if no one line is.
    pub fn offset(self) -> usize
        ensures offset { result ≡ offset self }
    {
        match self {
            Fault::FileTooLong | Fault::TagNotOnce => 0,
            Fault::LineTooLong { line }
            | Fault::UnprintableByte { line }
            | Fault::MalformedTag { line }
            | Fault::NoBoardNumber { line }
            | Fault::WrongDealer { line }
            | Fault::WrongVulnerability { line }
            | Fault::MalformedDeal { line }
            | Fault::RepeatedCard { line }
            | Fault::UnevenHands { line } => line,
        }
    }
}

// The fault in words, for people: no contract says what is printed.
impl fmt::Display for Fault {
    fn fmt<W: fmt::Write>(&self, f: &mut fmt::Formatter<W>) -> fmt::Result {
        f.write_str(match *self {
            Fault::FileTooLong => "the file is longer than 65535 bytes",
            Fault::LineTooLong { .. } => "a line is longer than 255 bytes",
            Fault::UnprintableByte { .. } => "a byte of a line is not printable",
            Fault::MalformedTag { .. } => "a line opened by [ is no tag line",
            Fault::TagNotOnce => "Board, Dealer, Vulnerable and Deal do not each occur once",
            Fault::NoBoardNumber { .. } => "Board is no number from 1 to 255",
            Fault::WrongDealer { .. } => "Dealer is not the board's dealer",
            Fault::WrongVulnerability { .. } => "Vulnerable is not the board's vulnerability",
            Fault::MalformedDeal { .. } => "Deal does not name four hands",
            Fault::RepeatedCard { .. } => "a card of Deal repeats",
            Fault::UnevenHands { .. } => "a hand of Deal has not 13 cards",
        })
    }
}

impl Error for Fault {}
