ghost use Rattle.std.specs.Prelude.{◌≡◌, length};
ghost use Rattle.linked.specs.Opened.{linked_tree};
ghost use Rattle.linked.specs.Kept.{linked-kept};

use crate::accepted::LinkedPage;
use crate::records::LinkedRecords;
use page::{Height, NodeKind, Page, Part};
use table::Reader;

impl<'a> LinkedPage<'a> {
    fn reader(&self) -> Reader<'_, LinkedRecords<'a>>
        ensures { result.records.now ≡ self.now.records }
    {
        Reader {
            records: &self.records,
        }
    }
}

impl<'a> Page for LinkedPage<'a> {
    ghost tree = { linked_tree };

    ghost limit = { λ p. length p.records.nodes.now };

    ghost kept = { linked-kept };

    fn root(&self) -> usize {
        0
    }

    fn bound(&self) -> usize {
        self.records.nodes.len()
    }

    fn has(&self, n: usize) -> bool {
        n < self.records.nodes.len()
    }

    fn kind_of(&self, n: usize) -> NodeKind {
        self.reader().kind_of(n)
    }

    fn parent_of(&self, n: usize) -> Option<usize> {
        self.records.nodes.get(n)?.parent.map(usize::from)
    }

    fn first_child_of(&self, n: usize) -> Option<usize> {
        self.records.nodes.get(n)?.first_child.map(usize::from)
    }

    fn next_sibling_of(&self, n: usize) -> Option<usize> {
        self.records.nodes.get(n)?.next_sibling.map(usize::from)
    }

    fn attrs_of(&self, n: usize) -> usize {
        self.reader().attrs_of(n)
    }

    fn len_of(&self, n: usize, part: Part) -> usize {
        self.reader().len_of(n, part)
    }

    fn byte_of(&self, n: usize, part: Part, i: usize) -> u8 {
        self.reader().byte_of(n, part, i)
    }
}

impl<'a> Height for LinkedPage<'a> {
    fn height(&self) -> usize {
        self.height
    }
}
