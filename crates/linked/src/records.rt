use crate::node::LinkedNode;
use table::AttrRecord;

// The records and the bytes of a page, as they lie in three lent slices. The counts are the slices' lengths.
#[derive(Clone, Copy)]
pub struct LinkedRecords<'a> {
    pub nodes: &'a [LinkedNode],
    pub attrs: &'a [AttrRecord],
    pub bytes: &'a [u8],
}
