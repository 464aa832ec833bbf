// Reading the records of a file.
ghost use Rattle.std.specs.Prelude.{◌≡◌, ◌<◌};
ghost use Rattle.pagefile.specs.File.{node_in, attr_in, table_of};

use super::Sections;
use crate::fields::{u16_at, u32_at};
use table::{AttrRecord, NodeRecord, Records, clamped};

impl<'a> Sections<'a> {
    fn node_at(&self, i: usize) -> NodeRecord
        requires { i < self.now.counts.nodes }
        ensures { result ≡ node_in self.now.file.now i }
    {
        let p = 4 + 16 * i;
        NodeRecord {
            kind: self.file[p],
            depth: self.file[p + 1],
            attrs: u16_at(self.file, p + 2),
            first: u32_at(self.file, p + 4),
            start: u32_at(self.file, p + 8),
            len: u32_at(self.file, p + 12),
        }
    }

    fn attr_at(&self, j: usize) -> AttrRecord
        requires { j < self.now.counts.attrs }
        ensures { result ≡ attr_in self.now.file.now j }
    {
        let p = 8 + 16 * self.counts.nodes + 8 * j;
        AttrRecord {
            name: u16_at(self.file, p),
            value: u16_at(self.file, p + 2),
            start: u32_at(self.file, p + 4),
        }
    }
}

impl<'a> Records for Sections<'a> {
    ghost table = { λ s. table_of s.file.now };

    fn nodes(&self) -> usize {
        self.counts.nodes
    }

    fn attrs(&self) -> usize {
        self.counts.attrs
    }

    fn bytes(&self) -> usize {
        self.counts.bytes
    }

    fn node(&self, i: usize) -> NodeRecord {
        if i < self.counts.nodes {
            self.node_at(i)
        } else {
            NodeRecord::default()
        }
    }

    fn attr(&self, j: usize) -> AttrRecord {
        if j < self.counts.attrs {
            self.attr_at(j)
        } else {
            AttrRecord::default()
        }
    }

    fn part(&self, start: usize, len: usize) -> &[u8] {
        let base = 12 + 16 * self.counts.nodes + 8 * self.counts.attrs;
        clamped(&self.file[base..base + self.counts.bytes], start, len)
    }
}
