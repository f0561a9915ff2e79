// Rows of a score sheet, and why a call on a sheet is refused.
ghost use Rattle.std.specs.Prelude.{◌≡◌};
ghost use Rattle.sheets.specs.Rows.{number};

use std::error::Error;
use std::fmt;

// Two pairs that met on a board, and the score to North-South.
#[derive(Clone, Copy, Debug, Default, PartialEq, Eq, Hash)]
pub struct Row {
    pub ns: u16,
    pub ew: u16,
    pub score: i32,
}

#[derive(Clone, Copy, Debug, PartialEq, Eq, Hash)]
pub enum Refusal {
    NoSpace,
    WrongPairs,
    WrongScore,
    NoRow,
}

impl Refusal {
    // The number of the question that was answered no: by rule whoever adds a row is told that number.
    pub fn number(self) -> u8
        ensures number { result ≡ number self }
    {
        match self {
            Refusal::NoSpace => 16,
            Refusal::WrongPairs => 17,
            Refusal::WrongScore => 18,
            Refusal::NoRow => 19,
        }
    }
}

impl fmt::Display for Refusal {
    fn fmt<W: fmt::Write>(&self, f: &mut fmt::Formatter<W>) -> fmt::Result {
        f.write_str(match *self {
            Refusal::NoSpace => "the sheet has no space for a row",
            Refusal::WrongPairs => "the pairs are no two new ones from 1 to 999",
            Refusal::WrongScore => "the score is no multiple of 10 from -7600 to 7600",
            Refusal::NoRow => "the sheet has no such row",
        })
    }
}

impl Error for Refusal {}
