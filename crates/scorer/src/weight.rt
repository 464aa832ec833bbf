// The weight of an id and a class, and the points that a candidate starts with.
ghost use Rattle.std.specs.Prelude.{◌≡◌, pos, negsuc, ◌+ℤ◌, ◌≤ℤ◌};
ghost use Rattle.page.specs.Forest.{find, attrs_of};
ghost use Rattle.names.specs.Attrs.{value_of};
ghost use Rattle.scorer.specs.Weight.{gain, value_weight, class_weight, tag_points, starting_points};

use names::{NEGATIVE_CANDIDATES, POSITIVE_CANDIDATES, Tag, first_attr_of, has_word_of, tag_of};
use page::{Page, Part};
use text::PartOf;

// What a value gains for a positive word and loses for a negative one.
fn gained(positive: bool, negative: bool) -> i32
    ensures value { result ≡ gain positive negative }
    ensures low { negsuc 24 ≤ℤ result }
    ensures high { result ≤ℤ pos 25 }
{
    match (positive, negative) {
        (true, false) => 25,
        (false, true) => -25,
        _ => 0,
    }
}

// The weight of the first attribute of a name.
fn weight_of<P: Page>(p: &P, n: usize, name: &[u8]) -> i32
    ensures value { result ≡ value_weight (value_of (attrs_of (find (P.tree p.now) n)) name.now) }
    ensures low { negsuc 24 ≤ℤ result }
    ensures high { result ≤ℤ pos 25 }
{
    let Some(j) = first_attr_of(p, n, name) else {
        return 0;
    };
    let value = PartOf::new(p, n, Part::Value(j));
    let positive = has_word_of(&value, &POSITIVE_CANDIDATES);
    let negative = has_word_of(&value, &NEGATIVE_CANDIDATES);
    gained(positive, negative)
}

// The weight of n, by its first id and its first class.
pub fn get_class_weight<P: Page>(p: &P, n: usize) -> i32
    ensures value { result ≡ class_weight (attrs_of (find (P.tree p.now) n)) }
    ensures low { negsuc 49 ≤ℤ result }
    ensures high { result ≤ℤ pos 50 }
{
    weight_of(p, n, b"id") + weight_of(p, n, b"class")
}

// The points of a tag.
fn tag_points(tag: Tag) -> i32
    ensures value { result ≡ tag_points tag }
    ensures low { negsuc 2 ≤ℤ result }
    ensures high { result ≤ℤ pos 10 }
{
    match tag {
        Tag::Article => 10,
        Tag::Div | Tag::Th => 5,
        Tag::Blockquote => 3,
        Tag::Form => -3,
        _ => 0,
    }
}

// The points that n starts with as a candidate.
pub fn starting_points<P: Page>(p: &P, n: usize) -> i32
    ensures { result ≡ starting_points (find (P.tree p.now) n) }
{
    tag_points(tag_of(p, n)) + get_class_weight(p, n)
}
