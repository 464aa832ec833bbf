ghost use Rattle.std.specs.Prelude.{◌≡◌, ◌++◌, codes, decimal, Some};
ghost use Rattle.builder.specs.Refusals.{number, record_of};

use std::error::Error;
use std::fmt;

// Why an event is refused.
#[derive(Clone, Copy, PartialEq, Eq, Debug)]
pub enum BuildRefusal {
    // no element is open to close, or no element or attribute was just given
    Misplaced,
    // no record or no byte is free, or a length does not fit its field
    Full,
    // deeper than 62
    TooDeep,
    // not well-formed UTF-8
    IllFormed,
}

impl BuildRefusal {
    // The number of the refusal.
    pub fn number(self) -> u8
        ensures { result ≡ number self }
    {
        match self {
            BuildRefusal::Misplaced => 21,
            BuildRefusal::Full => 22,
            BuildRefusal::TooDeep => 23,
            BuildRefusal::IllFormed => 24,
        }
    }

    // The record of the refusal: an event concerns none.
    pub fn record(self) -> usize
        ensures { result ≡ record_of self }
    {
        0
    }
}

// The number and the record of a refusal.
impl fmt::Display for BuildRefusal {
    ghost output = { λ r. Some (decimal (number r) ++ (codes " " ++ decimal (record_of r))) };

    fn fmt<W: fmt::Write>(&self, f: &mut fmt::Formatter<W>) -> fmt::Result {
        write!(f, "{} {}", self.number(), self.record())
    }
}

impl Error for BuildRefusal {}
