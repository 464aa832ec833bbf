// The records of a stored page, its sections, and the checks of opening. A 32-bit field becomes a `usize` by `as`, since
// `From` has no such conversion.
ghost use Rattle.std.specs.Prelude.{◌≡◌, ◌+◌};
ghost use Rattle.std.specs.Option.{ok_or};
ghost use Rattle.page.specs.Kinds.{coded};

use page::{NodeKind, UnknownKind};

// One node of a stored page: where its attributes and its content lie.
#[derive(Clone, Copy, Default)]
pub struct NodeRecord {
    // the code of the kind: records are filled by anybody, and opening refuses a number that is no code
    pub kind: u8,
    pub depth: u8,
    // how many attributes, and the index of the first
    pub attrs: u16,
    pub first: u32,
    // the content's offset and length among the bytes
    pub start: u32,
    pub len: u32,
}

impl NodeRecord {
    // The kind that the record names, if its code is one.
    pub(crate) fn named_kind(self) -> Result<NodeKind, UnknownKind>
        ensures { result ≡ ok_or (coded self.kind) (record { 0 = self.kind }) }
    {
        NodeKind::try_from(self.kind)
    }

    // The offset and the length of the content.
    pub(crate) fn content_place(self) -> (usize, usize)
        ensures { result ≡ (self.start, self.len) }
    {
        (self.start as usize, self.len as usize)
    }
}

// One attribute: the lengths of its name and its value, which lie one after the other from an offset on.
#[derive(Clone, Copy, Default)]
pub struct AttrRecord {
    pub name: u16,
    pub value: u16,
    pub start: u32,
}

impl AttrRecord {
    // The offset and the length of the name.
    pub(crate) fn name_place(self) -> (usize, usize)
        ensures { result ≡ (self.start, self.name) }
    {
        (self.start as usize, usize::from(self.name))
    }

    // The offset and the length of the value, which follows the name.
    pub(crate) fn value_place(self) -> (usize, usize)
        ensures { result ≡ (self.start + self.name, self.value) }
    {
        let (start, len) = self.name_place();
        (start + len, usize::from(self.value))
    }
}

// The three sections of a stored page.
#[derive(Clone, Copy, PartialEq, Eq, Debug)]
pub enum Section {
    Nodes,
    Attributes,
    Bytes,
}

// A check that opening makes. As an error it is the first one answered no; the number is the node's, or the node count.
#[derive(Clone, Copy, PartialEq, Eq, Debug)]
pub enum Check {
    CountPresent(Section),
    CountInRange(Section),
    RecordsPresent(Section),
    NothingFollows,
    Kind(usize),
    Depth(usize),
    Layout(usize),
    WellFormed(usize),
    SectionsEnd(usize),
}
