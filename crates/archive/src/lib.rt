// The record of a finished board, as the archive keeps it.

#![tactic(auto)]

ghost use Rattle.std.specs.Prelude.{◌≡◌};
ghost use Rattle.archive.specs.Writing.{number};

use std::error::Error;
use std::fmt;

mod plays;
mod sections;

// Why a record is not written.
#[derive(Clone, Copy, Debug, PartialEq, Eq)]
pub enum Refusal {
    NoRoom,
}

impl Refusal {
    // The number of the question that was answered no: by rule whoever asks for a record is told it.
    pub fn number(self) -> u8
        ensures number { result ≡ number self }
    {
        match self {
            Refusal::NoRoom => 15,
        }
    }
}

impl fmt::Display for Refusal {
    fn fmt<W: fmt::Write>(&self, f: &mut fmt::Formatter<W>) -> fmt::Result {
        f.write_str(match self {
            Refusal::NoRoom => "the record does not fit",
        })
    }
}

impl Error for Refusal {}
