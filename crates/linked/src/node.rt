use table::NodeRecord;

// One node in linked records: what every stored page has of a node, and its relatives. They are numbers and no boxes, since the
// caller lends the records and nothing is allocated.
#[derive(Clone, Copy)]
pub struct LinkedNode {
    pub node: NodeRecord,
    pub parent: Option<u16>,
    pub first_child: Option<u16>,
    pub next_sibling: Option<u16>,
}

impl LinkedNode {
    // The document alone.
    pub const DOCUMENT: LinkedNode = LinkedNode {
        node: NodeRecord {
            kind: 0,
            depth: 0,
            attrs: 0,
            first: 0,
            start: 0,
            len: 0,
        },
        parent: None,
        first_child: None,
        next_sibling: None,
    };
}
