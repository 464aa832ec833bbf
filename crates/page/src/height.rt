// How deep a page is.
ghost use Rattle.std.specs.Prelude.{◌≡◌};
ghost use Rattle.page.specs.Forest.{kids_of, levels, height_of};

use crate::node::Node;
use crate::page::Page;

// How many levels stand under a node. It calls itself once a level, and a page has at most 64. The loop is no chain, since a
// call of the function itself in a closure gets no proof.
fn levels_under<P: Page>(node: &Node<'_, P>) -> usize
    ensures { result ≡ levels (kids_of node.now) }
{
    let mut most: usize = 0;
    for child in node.children() {
        most = most.max(levels_under(&child) + 1);
    }
    most
}

// The height of any page, by walking over it.
pub fn walk_height<P: Page>(p: &P) -> usize
    ensures { result ≡ height_of (P.tree p.now) }
{
    levels_under(&Node::root(p))
}

// A page that knows how deep it is; one that stores its height answers at once.
pub trait Height: Page {
    fn height(&self) -> usize
        ensures { result ≡ height_of (Self.Page.tree self.now) }
    {
        walk_height(self)
    }
}
