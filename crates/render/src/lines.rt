// The lines of a page, in document order.
ghost use Rattle.std.specs.Prelude.{◌≡◌, ◌+◌, ◌≤◌, ◌++◌, OnOk};
ghost use Rattle.page.specs.Forest.{kids_of, levels};
ghost use Rattle.render.specs.Render.{lines};

use crate::line::push_line;
use page::{Node, Page};
use std::alloc::AllocError;

// The lines of what stands under a node, its children at this depth. It calls itself once a level.
fn push_under<P: Page>(
    node: &Node<'_, P>,
    depth: usize,
    out: &mut Vec<u8>,
) -> Result<(), AllocError>
    requires { depth + levels (kids_of node.now) ≤ 64 }
    ensures { OnOk result (out.new.items ≡ out.old.items ++ lines depth (kids_of node.now)) }
{
    for child in node.children() {
        push_line(&child, depth, out)?;
        push_under(&child, depth + 1, out)?;
    }
    Ok(())
}

// The lines of a page.
pub(crate) fn push_lines<P: Page>(p: &P, out: &mut Vec<u8>) -> Result<(), AllocError>
    ensures { OnOk result (out.new.items ≡ out.old.items ++ lines 0 (P.tree p.now)) }
{
    let root = Node::root(p);
    push_line(&root, 0, out)?;
    push_under(&root, 1, out)?;
    Ok(())
}
