// The link of a node.

// The parent of a node after the root, and the first node after it that does not stand under it, if there is one. The
// parent is no Option, which would make a page larger than 32 KB: the root's is never read.
#[derive(Clone, Copy)]
pub(crate) struct Link {
    pub(crate) parent: u16,
    pub(crate) end: Option<u16>,
}

impl Link {
    // No end, and a parent that is not read: the root's link, and that of a node that is not there.
    pub(crate) const BLANK: Link = Link {
        parent: 0,
        end: None,
    };
}
