// What accepted records say of a node: its kind, how many attributes it has, and the lengths and bytes of its parts; and how
// deep the deepest node stands. A 32-bit field becomes a `usize` by `as`, since `From` has no such conversion.
ghost use Rattle.std.specs.Prelude.{◌≡◌, ◌+◌, ◌<◌, true, is_some, Some};
ghost use Rattle.page.specs.Forest.{has, find, kind_of, count_of, part_of, length_in, byte_in};
ghost use Rattle.table.specs.Table.{attr_at, tree_of};
ghost use Rattle.table.specs.Checks.{accepts};
ghost use Rattle.table.specs.Stored.{Lies};
ghost use Rattle.table.specs.Links.{deepest};

use crate::record::{AttrRecord, NodeRecord};
use crate::records::Records;
use page::{NodeKind, Part};

// Reads records that were accepted. Away from a node, a part or a byte that is there, it may answer anything.
#[derive(Drop)]
pub struct Reader<'a, R: Records> {
    pub records: &'a R,
    ghost accepted: { accepts (R.table records.now) ≡ true },
}

// The record of the attribute j of a node, or a blank one.
fn attr_of<R: Records>(t: &R, x: NodeRecord, j: usize) -> AttrRecord
    ensures { j < x.attrs → result ≡ attr_at (R.table t.now) (x.first + j) }
{
    if j < usize::from(x.attrs) {
        t.attr(x.first as usize + j)
    } else {
        AttrRecord::default()
    }
}

impl<'a, R: Records> Reader<'a, R> {
    // Where a part of the node n lies among the bytes: its offset and its length. By the methods of the records a walk over a
    // page took a quarter longer.
    fn place(&self, n: usize, part: Part) -> (usize, usize)
        ensures { let t = R.table self.now.records.now in is_some (part_of (find (tree_of t) n) part) ≡ true → Lies t n part result.0 result.1 }
    {
        let x = self.records.node(n);
        match part {
            Part::Content => (x.start as usize, x.len as usize),
            Part::Name(j) => {
                let a = attr_of(self.records, x, j);
                (a.start as usize, usize::from(a.name))
            }
            Part::Value(j) => {
                let a = attr_of(self.records, x, j);
                (a.start as usize + usize::from(a.name), usize::from(a.value))
            }
        }
    }

    // The kind of the node n, which has the code of one.
    pub fn kind_of(&self, n: usize) -> NodeKind
        ensures { let t = R.table self.now.records.now in has (tree_of t) n ≡ true → Some result ≡ kind_of (find (tree_of t) n) }
    {
        let x = self.records.node(n);
        x.named_kind().unwrap_or(NodeKind::Element)
    }

    // How many attributes the node n has.
    pub fn attrs_of(&self, n: usize) -> usize
        ensures { let t = R.table self.now.records.now in has (tree_of t) n ≡ true → Some result ≡ count_of (find (tree_of t) n) }
    {
        usize::from(self.records.node(n).attrs)
    }

    // The length of a part of the node n.
    pub fn len_of(&self, n: usize, part: Part) -> usize
        ensures { let t = R.table self.now.records.now in is_some (part_of (find (tree_of t) n) part) ≡ true → Some result ≡ length_in (part_of (find (tree_of t) n) part) }
    {
        self.place(n, part).1
    }

    // The byte i of a part of the node n.
    pub fn byte_of(&self, n: usize, part: Part, i: usize) -> u8
        ensures { let t = R.table self.now.records.now in is_some (byte_in (part_of (find (tree_of t) n) part) i) ≡ true → Some result ≡ byte_in (part_of (find (tree_of t) n) part) i }
    {
        let (start, len) = self.place(n, part);
        self.records.part(start, len).get(i).copied().unwrap_or(0)
    }
}

// How deep the deepest node stands.
pub fn stored_height<R: Records>(t: &R) -> usize
    ensures { result ≡ deepest (R.table t.now).nodes }
{
    (0..t.nodes())
        .map(|i| usize::from(t.node(i).depth))
        .max()
        .unwrap_or(0)
}
