// Reading records, in whatever form they lie.
ghost use Rattle.std.specs.Prelude.{◌≡◌, length, take, drop};
ghost use Rattle.table.specs.Table.{Table, node_at, attr_at, part};

use crate::record::{AttrRecord, NodeRecord};

// A stored page's records, in whatever form they lie. Past an end a record is blank and a part has no bytes.
pub trait Records {
    ghost table: { Self → Table };

    fn nodes(&self) -> usize
        ensures { result ≡ length (table self.now).nodes };

    fn attrs(&self) -> usize
        ensures { result ≡ length (table self.now).attrs };

    fn bytes(&self) -> usize
        ensures { result ≡ length (table self.now).bytes };

    fn node(&self, i: usize) -> NodeRecord
        ensures { result ≡ node_at (table self.now) i };

    fn attr(&self, j: usize) -> AttrRecord
        ensures { result ≡ attr_at (table self.now) j };

    // len of the bytes, from start on, as far as there are so many.
    fn part(&self, start: usize, len: usize) -> &[u8]
        ensures { result.now ≡ part (table self.now) start len };
}

// len of the bytes, from start on, as far as there are so many.
pub fn clamped(bytes: &[u8], start: usize, len: usize) -> &[u8]
    ensures { result.now ≡ take len (drop start bytes.now) }
{
    let rest = &bytes[start.min(bytes.len())..];
    &rest[..len.min(rest.len())]
}
