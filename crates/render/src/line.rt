// The line of a node.
ghost use Rattle.std.specs.Prelude.{◌≡◌, ◌*◌, ◌<◌, ◌≤◌, true, [], ◌++◌, length, replicate, is_some, OnOk, slice_index_or};
ghost use Rattle.page.specs.Forest.{attrs_of, part_of};
ghost use Rattle.render.specs.Render.{quoted, word, attr_text, attrs_text};
ghost use Rattle.render.specs.Found.{part_bytes, content_in, line_of};

use crate::escape::push_quoted_from;
use page::{Node, NodeKind, Page, Part};
use std::alloc::AllocError;

// Two spaces a depth.
fn push_indent(out: &mut Vec<u8>, depth: usize) -> Result<(), AllocError>
    requires { depth ≤ 64 }
    ensures { OnOk result (out.new.items ≡ out.old.items ++ replicate (2 * depth) 32) }
{
    out.resize(out.len() + depth * 2, b' ')
}

// The word of a kind, as bytes: they go into a vector of bytes, where a `Display` would be no plainer.
fn kind_word(kind: NodeKind) -> &'static [u8]
    ensures { result.now ≡ word kind }
{
    match kind {
        NodeKind::Document => b"document",
        NodeKind::Doctype => b"doctype",
        NodeKind::Text => b"text",
        NodeKind::Comment => b"comment",
        NodeKind::Element => b"element",
    }
}

// A part in quotes.
fn push_part<P: Page>(node: &Node<'_, P>, part: Part, out: &mut Vec<u8>) -> Result<(), AllocError>
    requires { is_some (part_of node.now part) ≡ true }
    ensures { OnOk result (out.new.items ≡ out.old.items ++ quoted (part_bytes node.now part)) }
{
    let p = node.page();
    let n = node.number();
    let bytes = (0..p.len_of(n, part)).map(|i| p.byte_of(n, part, i));
    push_quoted_from(out, bytes)
}

// The content of all but the document: a space and the quoted bytes.
fn push_content<P: Page>(node: &Node<'_, P>, out: &mut Vec<u8>) -> Result<(), AllocError>
    ensures { OnOk result (out.new.items ≡ out.old.items ++ content_in node.now) }
{
    if let NodeKind::Document = node.kind() {
        return Ok(());
    }
    out.push(b' ')?;
    push_part(node, Part::Content, out)?;
    Ok(())
}

// An attribute: a space, the quoted name, an equals sign, the quoted value.
fn push_attr<P: Page>(node: &Node<'_, P>, j: usize, out: &mut Vec<u8>) -> Result<(), AllocError>
    requires { j < length (attrs_of node.now) }
    ensures { OnOk result (out.new.items ≡ out.old.items ++ attr_text (slice_index_or (attrs_of node.now) j ([], []))) }
{
    out.push(b' ')?;
    push_part(node, Part::Name(j), out)?;
    out.push(b'=')?;
    push_part(node, Part::Value(j), out)?;
    Ok(())
}

// Each attribute, by its number, as a page answers it.
fn push_attrs<P: Page>(node: &Node<'_, P>, out: &mut Vec<u8>) -> Result<(), AllocError>
    ensures { OnOk result (out.new.items ≡ out.old.items ++ attrs_text (attrs_of node.now)) }
{
    for j in 0..node.attrs() {
        push_attr(node, j, out)?;
    }
    Ok(())
}

// The line of a node at a depth.
pub(crate) fn push_line<P: Page>(
    node: &Node<'_, P>,
    depth: usize,
    out: &mut Vec<u8>,
) -> Result<(), AllocError>
    requires { depth ≤ 64 }
    ensures { OnOk result (out.new.items ≡ out.old.items ++ line_of depth node.now) }
{
    push_indent(out, depth)?;
    out.extend_from_slice(kind_word(node.kind()))?;
    push_content(node, out)?;
    push_attrs(node, out)?;
    out.push(b'\n')?;
    Ok(())
}
