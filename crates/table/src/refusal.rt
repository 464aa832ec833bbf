// The numbers of sections and refusals.
ghost use Rattle.std.specs.Prelude.{◌≡◌, ◌++◌, cond, codes, decimal, Some, None};
ghost use Rattle.table.specs.declared.record.Check.TheVariants.{CountInRange};
ghost use Rattle.table.specs.Checks.{section_number, number, record_of, least, most, in_range, refused};

use crate::record::{Check, Section};
use std::error::Error;
use std::fmt;

impl Section {
    // Sections count from 1.
    pub fn number(self) -> usize
        ensures { result ≡ section_number self }
    {
        match self {
            Section::Nodes => 1,
            Section::Attributes => 2,
            Section::Bytes => 3,
        }
    }

    // The least count of a section.
    pub fn least(self) -> usize
        ensures { result ≡ least self }
    {
        match self {
            Section::Nodes => 1,
            Section::Attributes | Section::Bytes => 0,
        }
    }

    // The greatest count of a section.
    pub fn most(self) -> usize
        ensures { result ≡ most self }
    {
        match self {
            Section::Nodes => 4096,
            Section::Attributes => 8192,
            Section::Bytes => 131_072,
        }
    }

    // Whether a section may have n records.
    pub fn in_range(self, n: usize) -> bool
        ensures { result ≡ in_range self n }
    {
        (self.least()..=self.most()).contains(&n)
    }

    // The check that a section may have n records.
    pub fn check_count(self, n: usize) -> Result<(), Check>
        ensures { refused result ≡ cond (in_range self n) None (Some (CountInRange self)) }
    {
        if self.in_range(n) {
            Ok(())
        } else {
            Err(Check::CountInRange(self))
        }
    }
}

impl Check {
    // The number of the refusal.
    pub fn number(self) -> u8
        ensures { result ≡ number self }
    {
        match self {
            Check::CountPresent(_) | Check::RecordsPresent(_) | Check::NothingFollows => 11,
            Check::CountInRange(_) => 12,
            Check::Kind(_) => 13,
            Check::Depth(_) => 14,
            Check::Layout(_) | Check::SectionsEnd(_) => 15,
            Check::WellFormed(_) => 16,
        }
    }

    // The record that was checked: a section from 1, a node from 0, or the node count.
    pub fn record(self) -> usize
        ensures { result ≡ record_of self }
    {
        match self {
            Check::CountPresent(s) | Check::CountInRange(s) | Check::RecordsPresent(s) => {
                s.number()
            }
            Check::NothingFollows => Section::Bytes.number(),
            Check::Kind(i)
            | Check::Depth(i)
            | Check::Layout(i)
            | Check::WellFormed(i)
            | Check::SectionsEnd(i) => i,
        }
    }
}

// The number and the record of a refusal.
impl fmt::Display for Check {
    ghost output = { λ c. Some (decimal (number c) ++ (codes " " ++ decimal (record_of c))) };

    fn fmt<W: fmt::Write>(&self, f: &mut fmt::Formatter<W>) -> fmt::Result {
        write!(f, "{} {}", self.number(), self.record())
    }
}

impl Error for Check {}
