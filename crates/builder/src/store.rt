use crate::lent::Lent;
use linked::LinkedNode;
use table::AttrRecord;

// The caller lends records and bytes, since nothing is allocated while a page is built; and where the builder stands.
#[derive(Drop)]
pub(crate) struct Store<'a> {
    pub(crate) nodes: Lent<'a, LinkedNode>,
    pub(crate) attrs: Lent<'a, AttrRecord>,
    pub(crate) bytes: Lent<'a, u8>,
    // how deep the deepest node stands
    pub(crate) height: usize,
    // the innermost open node and its last child
    pub(crate) current: usize,
    pub(crate) last: Option<usize>,
    // Whether the event just granted was an element or an attribute: `last.is_none() && current != 0` says the same less plainly.
    pub(crate) fresh: bool,
}
