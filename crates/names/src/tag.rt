// The one classification of elements by their names.
ghost use Rattle.std.specs.Prelude.{◌≡◌, map, Decides};
ghost use Rattle.utf8.specs.Decode.{scalars_of};
ghost use Rattle.page.specs.Forest.{find};
ghost use Rattle.names.specs.Is.{is, among};
ghost use Rattle.names.specs.Names.{lowered, same};
ghost use Rattle.names.specs.Tags.{entry, sought, tag_of};

use crate::case::lower;
use page::{Ask, NodeKind, Page, Part};
use text::PartOf;

// What the rules tell apart; every other name, and what is no element, is Other.
#[derive(Clone, Copy, PartialEq, Eq)]
pub enum Tag {
    Anchor,
    Article,
    Aside,
    Blockquote,
    Br,
    Canvas,
    Center,
    Dd,
    Div,
    Dl,
    Dt,
    Embed,
    Footer,
    Form,
    H1,
    Header,
    Img,
    Input,
    Li,
    Link,
    Meta,
    Noscript,
    Object,
    Ol,
    P,
    Pre,
    Script,
    Section,
    Style,
    Table,
    Th,
    Title,
    Ul,
    Other,
}

impl Tag {
    // Whether this is the other tag: the derived `==`, with its meaning in a contract.
    pub fn is(self, other: Tag) -> bool
        ensures value { result ≡ is self other }
        ensures decides { Decides result (self ≡ other) }
    {
        self == other
    }

    // Whether this is one of the tags: `contains`, with its meaning in a contract.
    pub fn is_among(self, tags: &[Tag]) -> bool
        ensures { result ≡ among tags.now self }
    {
        tags.contains(&self)
    }
}

// The lowered names with their tags.
const TAGS: [(&[u8], Tag); 33] = [
    (b"a", Tag::Anchor),
    (b"article", Tag::Article),
    (b"aside", Tag::Aside),
    (b"blockquote", Tag::Blockquote),
    (b"br", Tag::Br),
    (b"canvas", Tag::Canvas),
    (b"center", Tag::Center),
    (b"dd", Tag::Dd),
    (b"div", Tag::Div),
    (b"dl", Tag::Dl),
    (b"dt", Tag::Dt),
    (b"embed", Tag::Embed),
    (b"footer", Tag::Footer),
    (b"form", Tag::Form),
    (b"h1", Tag::H1),
    (b"header", Tag::Header),
    (b"img", Tag::Img),
    (b"input", Tag::Input),
    (b"li", Tag::Li),
    (b"link", Tag::Link),
    (b"meta", Tag::Meta),
    (b"noscript", Tag::Noscript),
    (b"object", Tag::Object),
    (b"ol", Tag::Ol),
    (b"p", Tag::P),
    (b"pre", Tag::Pre),
    (b"script", Tag::Script),
    (b"section", Tag::Section),
    (b"style", Tag::Style),
    (b"table", Tag::Table),
    (b"th", Tag::Th),
    (b"title", Tag::Title),
    (b"ul", Tag::Ul),
];

// Whether a part spells the word, lowered.
fn spells<P: Page>(part: &PartOf<'_, P>, word: &[u8]) -> bool
    ensures { result ≡ same word.now (map lowered (scalars_of part.now)) }
{
    // The proof of `eq` on the two mapped iterators did not close.
    let mut chars = part.chars();
    for b in word {
        let Some(c) = chars.next() else {
            return false;
        };
        if lower(c) != char::from(*b) {
            return false;
        }
    }
    chars.next().is_none()
}

// The tag that a table has for what a part spells.
fn look_up<P: Page>(part: &PartOf<'_, P>, table: &[(&[u8], Tag)]) -> Tag
    ensures { result ≡ sought (map entry table.now) (map lowered (scalars_of part.now)) }
{
    table
        .iter()
        .find(|e| spells(part, e.0))
        .map_or(Tag::Other, |e| e.1)
}

// The tag of a node.
pub fn tag_of<P: Page>(p: &P, n: usize) -> Tag
    ensures { result ≡ tag_of (find (P.tree p.now) n) }
{
    match p.kind(n) {
        Some(NodeKind::Element) => look_up(&PartOf::new(p, n, Part::Content), &TAGS),
        _ => Tag::Other,
    }
}
