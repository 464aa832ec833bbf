// Linking: parents and ends, from the depths.
ghost use Rattle.std.specs.Prelude.{◌≡◌, ℕ, ◌+◌, ◌<◌, true};
ghost use Rattle.table.specs.Checks.{accepts};
ghost use Rattle.table.specs.Links.{ParentOf, EndOf};
ghost use Rattle.pagefile.specs.File.{table_of};
ghost use Rattle.pagefile.specs.Links.{end_in, Parents, Ends};

use super::Sections;
use crate::link::Link;
use table::Records;

impl<'a> Sections<'a> {
    // The parent of node i, once the nodes that end before it are entered. It follows links that it writes on the way, so
    // it is a `while`. A number of a node is below 4,096, so `as` loses nothing and no conversion can fail.
    fn climb(&self, links: &mut [Link; 4096], i: usize) -> usize
        requires accepted { accepts (table_of self.now.file.now) ≡ true }
        requires low { 0 < i }
        requires high { i < self.now.counts.nodes }
        requires up { Parents (table_of self.now.file.now) i links.old }
        requires down { Ends (table_of self.now.file.now) i links.old }
        ensures parent { ParentOf (table_of self.now.file.now) i result }
        ensures up { Parents (table_of self.now.file.now) i links.new }
        ensures down { (k : ℕ) → k < i → EndOf (table_of self.now.file.now) (i + 1) k (end_in links.new k) }
    {
        let depth = self.node(i).depth;
        let mut p = i - 1;
        while depth <= self.node(p).depth {
            links[p].end = Some(i as u16);
            p = usize::from(links[p].parent);
        }
        p
    }

    // The links of all nodes, written by number, since climbing reads those before. Every node is passed once on the way up.
    pub(crate) fn link(&self, links: &mut [Link; 4096])
        requires { accepts (table_of self.now.file.now) ≡ true }
        ensures parents { Parents (table_of self.now.file.now) self.now.counts.nodes links.new }
        ensures ends { Ends (table_of self.now.file.now) self.now.counts.nodes links.new }
    {
        links[0] = Link::BLANK;
        for i in 1..self.counts.nodes {
            let parent = self.climb(links, i) as u16;
            links[i] = Link { parent, end: None };
        }
    }
}
