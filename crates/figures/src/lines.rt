// The lines of a page, in document order.
ghost use Rattle.std.specs.Prelude.{◌≡◌, ◌≤◌, ◌++◌, length, OnOk};
ghost use Rattle.page.specs.Forest.{kids_of};
ghost use Rattle.dom.specs.Fill.{Measured};
ghost use Rattle.figures.specs.Listed.{Listed};
ghost use Rattle.figures.specs.Points.{point_lines};

use crate::line::push_line;
use dom::Under;
use page::{Node, Page};
use std::alloc::{AllocError, Global};

// The lines of what stands under a node, by a table of the figures of each node there. It calls itself once a level.
fn push_under<P: Page>(
    heap: Global,
    node: &Node<'_, P>,
    table: &[Under],
    out: &mut Vec<u8>,
) -> Result<(), AllocError>
    requires { Listed table.now (kids_of node.now) }
    ensures { OnOk result (out.new.items ≡ out.old.items ++ point_lines (kids_of node.now)) }
{
    for child in node.children() {
        push_line(heap, &child, &table[child.number()], out)?;
        push_under(heap, &child, table, out)?;
    }
    Ok(())
}

// The lines of a page, by such a table.
pub(crate) fn push_points<P: Page>(
    heap: Global,
    p: &P,
    table: &[Under],
    out: &mut Vec<u8>,
) -> Result<(), AllocError>
    requires long { P.limit p.now ≤ length table.now }
    requires measured { Measured (P.tree p.now) table.now }
    ensures { OnOk result (out.new.items ≡ out.old.items ++ point_lines (P.tree p.now)) }
{
    let root = Node::root(p);
    push_line(heap, &root, &table[root.number()], out)?;
    push_under(heap, &root, table, out)?;
    Ok(())
}
