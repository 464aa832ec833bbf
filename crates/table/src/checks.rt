// The checks of nodes, for records in any form. What stands before a node is read off the node before it, so each check is
// local and the whole is linear. A 32-bit field becomes a `usize` by `as`, since `From` has no such conversion.
ghost use Rattle.std.specs.Prelude.{◌≡◌, ◌==◌, ◌&&◌, ◌||◌, not, ◌+◌, ◌^◌, ◌<◌, ◌≤◌, [], ◌∷◌, length};
ghost use Rattle.table.specs.declared.record.Check.TheVariants.{Kind, Depth, Layout, WellFormed};
ghost use Rattle.table.specs.Checks.{is_parent_code, kind_ok, depth_ok, attr_end, attr_start, attrs_before, bytes_before, attr_ok, layout_ok, attr_formed, formed_ok, ends_ok, each, answer, first_no, of_node, of_nodes, refused};

use crate::record::{Check, NodeRecord};
use crate::records::Records;
use page::NodeKind;
use utf8::well_formed;

fn is_parent(x: NodeRecord) -> bool
    ensures { result ≡ is_parent_code x.kind }
{
    matches!(x.named_kind(), Ok(NodeKind::Document | NodeKind::Element))
}

// The document first and only there, and each other code that of a kind.
pub fn kind_ok<R: Records>(t: &R, i: usize) -> bool
    ensures { result ≡ kind_ok (R.table t.now) i }
{
    match t.node(i).named_kind() {
        Ok(NodeKind::Document) => i == 0,
        Ok(_) => i != 0,
        Err(_) => false,
    }
}

// Depth 0 first, later 1 to 62, at most one more than the node before, and more only under a document or an element.
pub fn depth_ok<R: Records>(t: &R, i: usize) -> bool
    ensures { result ≡ depth_ok (R.table t.now) i }
{
    let depth = t.node(i).depth;
    if i == 0 {
        return depth == 0;
    }
    let before = t.node(i - 1);
    (1..=62).contains(&depth)
        && (depth <= before.depth || (depth == before.depth + 1 && is_parent(before)))
}

fn attr_end<R: Records>(t: &R, j: usize) -> usize
    ensures { result ≡ attr_end (R.table t.now) j }
{
    let (start, len) = t.attr(j).value_place();
    start + len
}

fn attr_start<R: Records>(t: &R, x: NodeRecord, k: usize) -> usize
    requires { k ≤ 2 ^ 16 }
    ensures { result ≡ attr_start (R.table t.now) x k }
{
    if k == 0 {
        let (start, len) = x.content_place();
        start + len
    } else {
        attr_end(t, x.first as usize + (k - 1))
    }
}

// How many attributes and bytes the nodes before node i have.
fn before<R: Records>(t: &R, i: usize) -> (usize, usize)
    ensures { result ≡ (attrs_before (R.table t.now) i, bytes_before (R.table t.now) i) }
{
    if i == 0 {
        return (0, 0);
    }
    let x = t.node(i - 1);
    let attrs = usize::from(x.attrs);
    (x.first as usize + attrs, attr_start(t, x, attrs))
}

fn attr_ok<R: Records>(t: &R, x: NodeRecord, k: usize) -> bool
    requires { k < 2 ^ 16 }
    ensures { result ≡ attr_ok (R.table t.now) x k }
{
    let j = x.first as usize + k;
    t.attr(j).start as usize == attr_start(t, x, k) && attr_end(t, j) <= t.bytes()
}

fn attrs_ok<R: Records>(t: &R, x: NodeRecord) -> bool
    ensures { result ≡ each x.attrs (attr_ok (R.table t.now) x) }
{
    (0..usize::from(x.attrs)).all(|k| attr_ok(t, x, k))
}

// Attributes on elements only, the document's content empty.
fn kind_fits(x: NodeRecord) -> bool
    ensures { result ≡ (x.attrs == 0 || x.kind == 4) && (not (x.kind == 0) || x.len == 0) }
{
    match x.named_kind() {
        Ok(NodeKind::Element) => true,
        Ok(NodeKind::Document) => x.attrs == 0 && x.len == 0,
        _ => x.attrs == 0,
    }
}

// Attributes on elements only, the document's content empty, attributes and bytes running on without gap, all inside.
pub fn layout_ok<R: Records>(t: &R, i: usize) -> bool
    ensures { result ≡ layout_ok (R.table t.now) i }
{
    let x = t.node(i);
    let (start, len) = x.content_place();
    let (attrs, bytes) = before(t, i);
    kind_fits(x)
        && x.first as usize == attrs
        && x.first as usize + usize::from(x.attrs) <= t.attrs()
        && start == bytes
        && start + len <= t.bytes()
        && attrs_ok(t, x)
}

fn attr_formed<R: Records>(t: &R, j: usize) -> bool
    ensures { result ≡ attr_formed (R.table t.now) j }
{
    let a = t.attr(j);
    let (name, value) = (a.name_place(), a.value_place());
    well_formed(t.part(name.0, name.1)) && well_formed(t.part(value.0, value.1))
}

fn attrs_formed<R: Records>(t: &R, x: NodeRecord) -> bool
    ensures { result ≡ each x.attrs (λ k. attr_formed (R.table t.now) (x.first + k)) }
{
    (0..usize::from(x.attrs)).all(|k| attr_formed(t, x.first as usize + k))
}

// The content, and each name and value, is well-formed UTF-8.
pub fn formed_ok<R: Records>(t: &R, i: usize) -> bool
    ensures { result ≡ formed_ok (R.table t.now) i }
{
    let x = t.node(i);
    let (start, len) = x.content_place();
    well_formed(t.part(start, len)) && attrs_formed(t, x)
}

// The attributes and the bytes end with the last of n nodes.
pub fn ends_ok<R: Records>(t: &R, n: usize) -> bool
    ensures { result ≡ ends_ok (R.table t.now) n }
{
    before(t, n) == (t.attrs(), t.bytes())
}

// The checks of the kind and the depth of a node.
pub fn check_place<R: Records>(t: &R, i: usize) -> Result<(), Check>
    ensures { refused result ≡ first_no (answer (R.table t.now)) (Kind i ∷ Depth i ∷ []) }
{
    if !kind_ok(t, i) {
        return Err(Check::Kind(i));
    }
    if !depth_ok(t, i) {
        return Err(Check::Depth(i));
    }
    Ok(())
}

// The checks of what a node has: its attributes and its bytes.
pub fn check_parts<R: Records>(t: &R, i: usize) -> Result<(), Check>
    ensures { refused result ≡ first_no (answer (R.table t.now)) (Layout i ∷ WellFormed i ∷ []) }
{
    if !layout_ok(t, i) {
        return Err(Check::Layout(i));
    }
    if !formed_ok(t, i) {
        return Err(Check::WellFormed(i));
    }
    Ok(())
}

// The checks of one node, in their order.
pub fn check_node<R: Records>(t: &R, i: usize) -> Result<(), Check>
    ensures { refused result ≡ first_no (answer (R.table t.now)) (of_node i) }
{
    check_place(t, i)?;
    check_parts(t, i)
}

// The checks of every node, and the last one.
pub fn check_nodes<R: Records>(t: &R) -> Result<(), Check>
    ensures { refused result ≡ first_no (answer (R.table t.now)) (of_nodes 0 (length (R.table t.now).nodes)) }
{
    let n = t.nodes();
    for i in 0..n {
        check_node(t, i)?;
    }
    if !ends_ok(t, n) {
        return Err(Check::SectionsEnd(n));
    }
    Ok(())
}
