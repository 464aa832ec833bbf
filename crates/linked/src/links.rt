ghost use Rattle.std.specs.Prelude.{◌≡◌, ℕ, ◌+◌, ◌<◌, ◌≤◌, true, length};
ghost use Rattle.table.specs.Checks.{each};
ghost use Rattle.linked.specs.Links.{parent_link, child_link, sibling_link, same_link};
ghost use Rattle.linked.specs.Records.{table_in, links_ok};

use crate::records::LinkedRecords;
use table::Records;

fn same_link(link: Option<u16>, meant: Option<usize>) -> bool
    ensures { result ≡ same_link link meant }
{
    link.map(usize::from) == meant
}

impl<'a> LinkedRecords<'a> {
    // The last node before i that is less deep. It goes up by the links of the nodes before, and not over a range, so it is
    // a `while`. That those links match is a `requires`: as a struct's fact it would need a count that each check moves on.
    fn parent_by_depth(&self, i: usize) -> Option<usize>
        requires before { each i (links_ok self.now.nodes.now (table_in self.now)) ≡ true }
        requires inside { i ≤ length self.now.nodes.now }
        ensures { result ≡ parent_link (table_in self.now) i }
    {
        if i == 0 {
            return None;
        }
        let depth = self.node(i).depth;
        let mut p = i - 1;
        while depth <= self.node(p).depth {
            p = usize::from(self.nodes[p].parent?);
        }
        Some(p)
    }

    // The node behind i, where that is deeper.
    fn child_by_depth(&self, i: usize) -> Option<usize>
        requires { i < length self.now.nodes.now }
        ensures { result ≡ child_link (table_in self.now) i }
    {
        if self.node(i).depth < self.node(i + 1).depth {
            Some(i + 1)
        } else {
            None
        }
    }

    // The next node that is not deeper than i, where that is as deep.
    fn sibling_by_depth(&self, i: usize) -> Option<usize>
        requires { i < length self.now.nodes.now }
        ensures { result ≡ sibling_link (table_in self.now) i }
    {
        let depth = self.node(i).depth;
        let j = (i + 1..self.nodes.len()).find(|j| self.node(*j).depth <= depth)?;
        if self.node(j).depth == depth {
            Some(j)
        } else {
            None
        }
    }

    // Whether the links of node i are those that the depths mean, where those before are.
    pub(crate) fn links_ok(&self, i: usize) -> bool
        requires before { each i (links_ok self.now.nodes.now (table_in self.now)) ≡ true }
        requires inside { i < length self.now.nodes.now }
        ensures { result ≡ links_ok self.now.nodes.now (table_in self.now) i }
    {
        let x = self.nodes[i];
        same_link(x.parent, self.parent_by_depth(i))
            && same_link(x.first_child, self.child_by_depth(i))
            && same_link(x.next_sibling, self.sibling_by_depth(i))
    }
}
