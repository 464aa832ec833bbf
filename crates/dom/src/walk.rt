// The figures of every node, in one walk.
ghost use Rattle.std.specs.Prelude.{◌≡◌, slice_set};
ghost use Rattle.page.specs.Forest.{find, kids_of};
ghost use Rattle.dom.specs.Under.{under_of, element_of, node_of};
ghost use Rattle.names.specs.Tags.{tag_of};
ghost use Rattle.dom.specs.Small.{Small, Bounded};
ghost use Rattle.dom.specs.Fill.{fill_all, Measured};

use crate::scan::leaf_of;
use crate::under::Under;
use names::{Tag, tag_of};
use page::{Node, NodeKind, Page};

// The figures of a node with those of what is under it.
fn with_node<P: Page>(node: &Node<'_, P>, inner: &Under) -> Under
    requires element { Small (element_of (tag_of node.now) inner.now) }
    requires small { Small (node_of node.now inner.now) }
    ensures { result ≡ node_of node.now inner.now }
{
    let p = node.page();
    let n = node.number();
    match node.kind() {
        NodeKind::Text => leaf_of(p, n).plus(&inner.in_element(Tag::Other)),
        _ => inner.in_element(tag_of(p, n)),
    }
}

// Writes an entry of the table, if it has one at the place. By index, since a contract of `get_mut` tells nothing of the entries.
fn put(table: &mut [Under], at: usize, under: Under)
    ensures { table.new ≡ slice_set table.old at under }
{
    if at < table.len() {
        table[at] = under;
    }
}

// The figures of what is under a node; those of each node under it go into the table at its number. It calls itself
// once a level, and a page has at most 64.
fn fill<P: Page>(node: &Node<'_, P>, table: &mut [Under]) -> Under
    ensures value { result ≡ under_of (kids_of node.now) }
    ensures after { table.new ≡ fill_all (kids_of node.now) table.old }
{
    let mut sum = Under::none();
    for child in node.children() {
        let inner = fill(&child, table);
        put(table, child.number(), inner);
        sum = sum.plus(&with_node(&child, &inner));
    }
    sum
}

// The figures of what is under n: nothing where n is no node.
pub fn under_of<P: Page>(p: &P, n: usize) -> Under
    ensures value { result ≡ under_of (kids_of (find (P.tree p.now) n)) }
    ensures bounds { Bounded result }
{
    match Node::find(p, n) {
        Some(node) => fill(&node, &mut []),
        None => Under::none(),
    }
}

// The figures of what is under each node, into the table at its number; other entries stay, and so do nodes behind its
// end without one.
pub fn fill_under<P: Page>(p: &P, table: &mut [Under])
    ensures after { table.new ≡ fill_all (P.tree p.now) table.old }
    ensures measured { Measured (P.tree p.now) table.new }
{
    let root = Node::root(p);
    let all = fill(&root, table);
    put(table, root.number(), all);
}
