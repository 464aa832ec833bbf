// What a page is.
ghost use Rattle.std.specs.Prelude.{◌≡◌, ℕ, true, is_some, Some, None};
ghost use Rattle.page.specs.Forest.{Forest, find, has as has_in, head_of, kids_of, rest_of, kind_of, parent_in, count_of, part_of, length_in, byte_in};
ghost use Rattle.page.specs.Kept.{Kept};

use crate::kind::{NodeKind, Part};

// An ordered tree of numbered nodes. Every call takes any number and changes nothing. `has` is determined at every
// number; a call that ends in `_of` is determined at a node (at a part, at a byte of a part) that is there, and away
// from it may answer anything. The premise stands with each call, since this is what a kind of page implements; `Node` has
// it in its type for those who walk, and `Ask` has the questions that are determined everywhere.
pub trait Page {
    // the tree that the page means
    ghost tree: { Self → Forest };

    // the number bound
    ghost limit: { Self → ℕ };

    // what every page keeps
    ghost kept: { (p : Self) → Kept (limit p) (tree p) };

    fn root(&self) -> usize
        ensures { Some result ≡ head_of (tree self.now) };

    // Every number of a node is below it.
    fn bound(&self) -> usize
        ensures { result ≡ limit self.now };

    // Whether n is a node.
    fn has(&self, n: usize) -> bool
        ensures { result ≡ has_in (tree self.now) n };

    fn kind_of(&self, n: usize) -> NodeKind
        ensures { has_in (tree self.now) n ≡ true → Some result ≡ kind_of (find (tree self.now) n) };

    fn parent_of(&self, n: usize) -> Option<usize>
        ensures { has_in (tree self.now) n ≡ true → result ≡ parent_in None (tree self.now) n };

    fn first_child_of(&self, n: usize) -> Option<usize>
        ensures { has_in (tree self.now) n ≡ true → result ≡ head_of (kids_of (find (tree self.now) n)) };

    fn next_sibling_of(&self, n: usize) -> Option<usize>
        ensures { has_in (tree self.now) n ≡ true → result ≡ head_of (rest_of (find (tree self.now) n)) };

    fn attrs_of(&self, n: usize) -> usize
        ensures { has_in (tree self.now) n ≡ true → Some result ≡ count_of (find (tree self.now) n) };

    fn len_of(&self, n: usize, part: Part) -> usize
        ensures { is_some (part_of (find (tree self.now) n) part) ≡ true → Some result ≡ length_in (part_of (find (tree self.now) n) part) };

    fn byte_of(&self, n: usize, part: Part, i: usize) -> u8
        ensures { is_some (byte_in (part_of (find (tree self.now) n) part) i) ≡ true → Some result ≡ byte_in (part_of (find (tree self.now) n) part) i };
}
