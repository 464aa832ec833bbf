// Attributes by their names.
ghost use Rattle.std.specs.Prelude.{◌≡◌, true, is_some};
ghost use Rattle.page.specs.Forest.{find, attrs_of, part_of};
ghost use Rattle.page.specs.declared.kind.Part.TheVariants.{Name};
ghost use Rattle.text.specs.Held.{held};
ghost use Rattle.names.specs.Names.{same};
ghost use Rattle.names.specs.Attrs.{first_index, First};

use crate::word::word_at;
use page::{Ask, Page, Part};
use text::PartOf;

// Whether a part holds exactly these bytes.
pub fn is_of<P: Page>(part: &PartOf<'_, P>, word: &[u8]) -> bool
    ensures { result ≡ same word.now part.now }
{
    part.len() == word.len() && word_at(part, 0, word)
}

// Whether the attribute j of a node has this name, if it is there. It asks the page: a `PartOf` asks at each attribute for the
// node and its number of attributes again, which made a page of many attributes half as slow again.
fn is_named<P: Page>(p: &P, n: usize, j: usize, name: &[u8]) -> bool
    ensures { is_some (part_of (find (P.tree p.now) n) (Name j)) ≡ true → result ≡ same name.now (held (P.tree p.now) n (Name j)) }
{
    let part = Part::Name(j);
    if p.len_of(n, part) != name.len() {
        return false;
    }
    for (k, b) in name.iter().enumerate() {
        if p.byte_of(n, part, k) != *b {
            return false;
        }
    }
    true
}

// Which attribute of a node is the first of this name.
pub fn first_attr_of<P: Page>(p: &P, n: usize, name: &[u8]) -> Option<usize>
    ensures index { result ≡ first_index (attrs_of (find (P.tree p.now) n)) name.now }
    ensures first { First (attrs_of (find (P.tree p.now) n)) name.now result }
{
    for j in 0..p.attrs(n).unwrap_or(0) {
        if is_named(p, n, j, name) {
            return Some(j);
        }
    }
    None
}
