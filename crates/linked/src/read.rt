ghost use Rattle.linked.specs.Records.{table_in};

use crate::records::LinkedRecords;
use table::{AttrRecord, NodeRecord, Records, clamped};

impl<'a> Records for LinkedRecords<'a> {
    ghost table = { table_in };

    fn nodes(&self) -> usize {
        self.nodes.len()
    }

    fn attrs(&self) -> usize {
        self.attrs.len()
    }

    fn bytes(&self) -> usize {
        self.bytes.len()
    }

    fn node(&self, i: usize) -> NodeRecord {
        self.nodes.get(i).map(|x| x.node).unwrap_or_default()
    }

    fn attr(&self, j: usize) -> AttrRecord {
        self.attrs.get(j).copied().unwrap_or_default()
    }

    fn part(&self, start: usize, len: usize) -> &[u8] {
        clamped(self.bytes, start, len)
    }
}
