// Codes: the numbers of chairs, suits, denominations, vulnerabilities and, in crate scoring, doublings.
use std::error::Error;
use std::fmt;

// A number that stands for nothing of its kind.
#[derive(Clone, Copy, Debug, PartialEq, Eq)]
pub struct UnknownCode(pub u8);

impl fmt::Display for UnknownCode {
    fn fmt<W: fmt::Write>(&self, f: &mut fmt::Formatter<W>) -> fmt::Result {
        write!(f, "{} is no such code", self.0)
    }
}

impl Error for UnknownCode {}
