// The total questions of a page.
ghost use Rattle.std.specs.Prelude.{◌≡◌, is_some, None};
ghost use Rattle.page.specs.Forest.{find, head_of, kids_of, rest_of, kind_of, parent_in, count_of, part_of, length_in, byte_in};

use crate::kind::{NodeKind, Part};
use crate::page::Page;

// The questions of a page, determined at any number: absent where there is no such node, part, byte or relative.
pub trait Ask: Page {
    fn kind(&self, n: usize) -> Option<NodeKind>
        ensures { result ≡ kind_of (find (Self.Page.tree self.now) n) };

    fn parent(&self, n: usize) -> Option<usize>
        ensures { result ≡ parent_in None (Self.Page.tree self.now) n };

    fn first_child(&self, n: usize) -> Option<usize>
        ensures { result ≡ head_of (kids_of (find (Self.Page.tree self.now) n)) };

    fn next_sibling(&self, n: usize) -> Option<usize>
        ensures { result ≡ head_of (rest_of (find (Self.Page.tree self.now) n)) };

    fn attrs(&self, n: usize) -> Option<usize>
        ensures { result ≡ count_of (find (Self.Page.tree self.now) n) };

    // Whether n is a node with such a part.
    fn has_part(&self, n: usize, part: Part) -> bool
        ensures { result ≡ is_some (part_of (find (Self.Page.tree self.now) n) part) };

    fn len(&self, n: usize, part: Part) -> Option<usize>
        ensures { result ≡ length_in (part_of (find (Self.Page.tree self.now) n) part) };

    fn byte(&self, n: usize, part: Part, i: usize) -> Option<u8>
        ensures { result ≡ byte_in (part_of (find (Self.Page.tree self.now) n) part) i };
}

impl<P: Page> Ask for P {
    fn kind(&self, n: usize) -> Option<NodeKind> {
        if self.has(n) {
            Some(self.kind_of(n))
        } else {
            None
        }
    }

    fn parent(&self, n: usize) -> Option<usize> {
        if self.has(n) { self.parent_of(n) } else { None }
    }

    fn first_child(&self, n: usize) -> Option<usize> {
        if self.has(n) {
            self.first_child_of(n)
        } else {
            None
        }
    }

    fn next_sibling(&self, n: usize) -> Option<usize> {
        if self.has(n) {
            self.next_sibling_of(n)
        } else {
            None
        }
    }

    fn attrs(&self, n: usize) -> Option<usize> {
        if self.has(n) {
            Some(self.attrs_of(n))
        } else {
            None
        }
    }

    fn has_part(&self, n: usize, part: Part) -> bool {
        if !self.has(n) {
            return false;
        }
        match part {
            Part::Content => true,
            Part::Name(j) => j < self.attrs_of(n),
            Part::Value(j) => j < self.attrs_of(n),
        }
    }

    fn len(&self, n: usize, part: Part) -> Option<usize> {
        if self.has_part(n, part) {
            Some(self.len_of(n, part))
        } else {
            None
        }
    }

    fn byte(&self, n: usize, part: Part, i: usize) -> Option<u8> {
        if self.has_part(n, part) {
            if i < self.len_of(n, part) {
                Some(self.byte_of(n, part, i))
            } else {
                None
            }
        } else {
            None
        }
    }
}
