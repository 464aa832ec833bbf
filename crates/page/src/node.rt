// A node that is there, and its children.
ghost use Rattle.std.specs.Prelude.{◌≡◌, ℕ, Some, length};
ghost use Rattle.std.specs.Iterator.{YieldsFirst, item_count};
ghost use Rattle.page.specs.Coding.{forest_code};
ghost use Rattle.page.specs.Forest.{Forest, find, head_of, kids_of, kind_of, attrs_of, from, trees, tree_or_none};
ghost use Rattle.page.specs.Kept.{KeptNode};

use crate::kind::NodeKind;
use crate::page::Page;
use std::marker::Model;

// A node of a page that is there. In a contract it is the forest that begins with it: the node, what stands under it, and
// its later siblings.
#[derive(Drop)]
pub struct Node<'p, P: Page> {
    page: &'p P,
    number: usize,
}

impl<'p, P: Page> Model for Node<'p, P> {
    ghost Value = { Forest };

    ghost coded = { forest_code };

    ghost view = { λ s. find (P.tree s.page.now) s.number };

    ghost invariant = { λ s. head_of (find (P.tree s.page.now) s.number) ≡ Some s.number };
}

impl<'p, P: Page> Node<'p, P> {
    // The root of a page.
    pub fn root(page: &'p P) -> Node<'p, P>
        ensures { result ≡ P.tree page.now }
    {
        Node {
            page,
            number: page.root(),
        }
    }

    // The node of a number, if there is one.
    pub fn find(page: &'p P, number: usize) -> Option<Node<'p, P>>
        ensures { result ≡ tree_or_none (find (P.tree page.now) number) }
    {
        if page.has(number) {
            Some(Node { page, number })
        } else {
            None
        }
    }

    // The page on which it stands.
    pub fn page(&self) -> &'p P
        ensures { (n : ℕ) → head_of self.now ≡ Some n → find (P.tree result.now) n ≡ self.now }
    {
        self.page
    }

    pub fn number(&self) -> usize
        ensures { Some result ≡ head_of self.now }
    {
        self.number
    }

    pub fn kind(&self) -> NodeKind
        ensures kind { Some result ≡ kind_of self.now }
        ensures kept { KeptNode self.now }
    {
        self.page.kind_of(self.number)
    }

    // How many attributes it has.
    pub fn attrs(&self) -> usize
        ensures { result ≡ length (attrs_of self.now) }
    {
        self.page.attrs_of(self.number)
    }

    // Its children, in order.
    pub fn children(&self) -> Children<'p, P>
        ensures children { result ≡ kids_of self.now }
        ensures kept { KeptNode self.now }
    {
        Children {
            page: self.page,
            next: self.page.first_child_of(self.number),
        }
    }
}

// The children of a node that are still to come, in order.
#[derive(Drop)]
pub struct Children<'p, P: Page> {
    page: &'p P,
    next: Option<usize>,
}

impl<'p, P: Page> Model for Children<'p, P> {
    ghost Value = { Forest };

    ghost coded = { forest_code };

    ghost view = { λ s. from (P.tree s.page.now) s.next };

    ghost invariant = { λ s. head_of (from (P.tree s.page.now) s.next) ≡ s.next };
}

impl<'p, P: Page> Iterator for Children<'p, P> {
    type Item = Node<'p, P>;

    ghost next_gives = { YieldsFirst trees };

    ghost remaining = { item_count trees };

    fn next(&mut self) -> Option<Node<'p, P>> {
        let page = self.page;
        let first = self.next?;
        self.next = page.next_sibling_of(first);
        Some(Node {
            page,
            number: first,
        })
    }
}
