// Why a base is refused, by number.
ghost use Rattle.std.specs.Prelude.{◌≡◌, ◌++◌, Some, codes, decimal};
ghost use Rattle.address.specs.Refusal.{number, record_of};

use std::error::Error;
use std::fmt;

#[derive(Clone, Copy, PartialEq, Eq, Debug)]
pub enum BaseRefusal {
    NotABase,
}

impl BaseRefusal {
    // The number by which a refusal is reported.
    pub fn number(self) -> u8
        ensures { result ≡ number self }
    {
        match self {
            BaseRefusal::NotABase => 41,
        }
    }

    // Each refusal is reported with a record, and 0 stands for none.
    pub fn record(self) -> usize
        ensures { result ≡ record_of self }
    {
        match self {
            BaseRefusal::NotABase => 0,
        }
    }
}

impl fmt::Display for BaseRefusal {
    ghost output = { λ e. Some (codes "refused " ++ decimal (number e) ++ codes " " ++ decimal (record_of e)) };

    fn fmt<W: fmt::Write>(&self, f: &mut fmt::Formatter<W>) -> fmt::Result {
        write!(f, "refused {} {}", self.number(), self.record())
    }
}

impl Error for BaseRefusal {}
