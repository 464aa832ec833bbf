// The codes of the kinds.
ghost use Rattle.std.specs.Prelude.{◌≡◌, ◌++◌, Some, codes, decimal, MatchResult, ◌≢◌};
ghost use Rattle.std.specs.Option.{ok_or};
ghost use Rattle.page.specs.Kinds.{code, coded};

use crate::kind::NodeKind;
use std::error::Error;
use std::fmt;

impl From<NodeKind> for u8 {
    ghost from_gives = { λ kind r. r ≡ code kind };

    // The number of the kind in files and records.
    fn from(kind: NodeKind) -> u8
        ensures { result ≡ code kind }
    {
        match kind {
            NodeKind::Document => 0,
            NodeKind::Doctype => 1,
            NodeKind::Text => 2,
            NodeKind::Comment => 3,
            NodeKind::Element => 4,
        }
    }
}

// A number that is the code of no kind.
#[derive(Clone, Copy, PartialEq, Eq, Debug)]
pub struct UnknownKind(pub u8);

impl TryFrom<u8> for NodeKind {
    type Error = UnknownKind;

    ghost try_from_gives = { λ number r. r ≡ ok_or (coded number) (record { 0 = number }) };

    // The kind that has this code, if one has.
    fn try_from(number: u8) -> Result<NodeKind, UnknownKind>
        ensures kind { result ≡ ok_or (coded number) (record { 0 = number }) }
        ensures inverse { MatchResult result (λ k. code k ≡ number) (λ _. (k : NodeKind) → code k ≢ number) }
    {
        match number {
            0 => Ok(NodeKind::Document),
            1 => Ok(NodeKind::Doctype),
            2 => Ok(NodeKind::Text),
            3 => Ok(NodeKind::Comment),
            4 => Ok(NodeKind::Element),
            _ => Err(UnknownKind(number)),
        }
    }
}

impl fmt::Display for UnknownKind {
    ghost output = { λ e. Some (codes "no kind of node has the code " ++ decimal e.0) };

    fn fmt<W: fmt::Write>(&self, f: &mut fmt::Formatter<W>) -> fmt::Result {
        write!(f, "no kind of node has the code {}", self.0)
    }
}

impl Error for UnknownKind {}
