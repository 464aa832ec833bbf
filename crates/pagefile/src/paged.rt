// The answers of an opened page, from its records and links.
ghost use Rattle.std.specs.Prelude.{◌≡◌};
ghost use Rattle.pagefile.specs.Opened.{opened_tree};
ghost use Rattle.pagefile.specs.Kept.{opened-kept};

use crate::opened::OpenedPage;
use crate::sections::Sections;
use page::{Height, NodeKind, Page, Part};
use table::{Reader, Records};

// The first node is the document.
const ROOT: usize = 0;

impl<'a> OpenedPage<'a> {
    fn reader(&self) -> Reader<'_, Sections<'a>>
        ensures { result.records.now ≡ self.now.sections }
    {
        Reader {
            records: &self.sections,
        }
    }
}

impl<'a> Page for OpenedPage<'a> {
    ghost tree = { opened_tree };

    ghost limit = { λ p. p.sections.counts.nodes };

    ghost kept = { opened-kept };

    fn root(&self) -> usize {
        ROOT
    }

    fn bound(&self) -> usize {
        self.sections.nodes()
    }

    fn has(&self, n: usize) -> bool {
        n < self.sections.counts.nodes
    }

    fn kind_of(&self, n: usize) -> NodeKind {
        self.reader().kind_of(n)
    }

    fn parent_of(&self, n: usize) -> Option<usize> {
        if n == ROOT {
            return None;
        }
        if n < self.sections.counts.nodes {
            Some(usize::from(self.links[n].parent))
        } else {
            None
        }
    }

    fn first_child_of(&self, n: usize) -> Option<usize> {
        if n >= self.sections.counts.nodes {
            return None;
        }
        if self.sections.node(n).depth < self.sections.node(n + 1).depth {
            Some(n + 1)
        } else {
            None
        }
    }

    fn next_sibling_of(&self, n: usize) -> Option<usize> {
        if n >= self.sections.counts.nodes {
            return None;
        }
        let end = usize::from(self.links[n].end?);
        if self.sections.node(end).depth == self.sections.node(n).depth {
            Some(end)
        } else {
            None
        }
    }

    fn attrs_of(&self, n: usize) -> usize {
        self.reader().attrs_of(n)
    }

    fn len_of(&self, n: usize, part: Part) -> usize {
        self.reader().len_of(n, part)
    }

    fn byte_of(&self, n: usize, part: Part, i: usize) -> u8 {
        self.reader().byte_of(n, part, i)
    }
}

impl<'a> Height for OpenedPage<'a> {
    fn height(&self) -> usize {
        self.height
    }
}
