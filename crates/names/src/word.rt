// Words sought in a value.
ghost use Rattle.std.specs.Prelude.{◌≡◌, ℕ, ◌&&◌, List, Some, map, drop, Decides};
ghost use Rattle.std.specs.List.{slice_get};
ghost use Rattle.names.specs.Words.{begins, some_begins, has_word, SomeWord};

use page::Page;
use text::PartOf;

pub const UNLIKELY_CANDIDATES: [&[u8]; 21] = [
    b"combx",
    b"comment",
    b"community",
    b"disqus",
    b"extra",
    b"foot",
    b"header",
    b"menu",
    b"remark",
    b"rss",
    b"shoutbox",
    b"sidebar",
    b"sponsor",
    b"ad-break",
    b"agegate",
    b"pagination",
    b"pager",
    b"popup",
    b"tweet",
    b"twitter",
    b"ssba",
];

pub const LIKELY_CANDIDATES: [&[u8]; 8] = [
    b"and", b"article", b"body", b"column", b"main", b"shadow", b"content", b"hentry",
];

pub const POSITIVE_CANDIDATES: [&[u8]; 12] = [
    b"article",
    b"body",
    b"content",
    b"entry",
    b"hentry",
    b"main",
    b"page",
    b"pagination",
    b"post",
    b"text",
    b"blog",
    b"story",
];

pub const NEGATIVE_CANDIDATES: [&[u8]; 25] = [
    b"combx",
    b"comment",
    b"com",
    b"contact",
    b"foot",
    b"footer",
    b"footnote",
    b"masthead",
    b"media",
    b"meta",
    b"outbrain",
    b"promo",
    b"related",
    b"scroll",
    b"shoutbox",
    b"sidebar",
    b"sponsor",
    b"shopping",
    b"tags",
    b"tool",
    b"widget",
    b"form",
    b"textfield",
    b"uiScale",
    b"hidden",
];

// Whether the word stands at the place of a part.
pub(crate) fn word_at<P: Page>(part: &PartOf<'_, P>, at: usize, word: &[u8]) -> bool
    ensures { result ≡ begins word.now (drop at part.now) }
{
    word.len() <= part.len().saturating_sub(at)
        && (at..part.len())
            .zip(word)
            .all(|(i, b)| part.get(i) == Some(*b))
}

// Whether a word may stand where this byte does.
fn may_begin(word: &[u8], byte: u8) -> bool
    ensures { (v : List ℕ) (at : ℕ) → Some byte ≡ slice_get v at → (result && begins word.now (drop at v)) ≡ begins word.now (drop at v) }
{
    word.is_empty() || byte == word[0]
}

// Whether one of the words stands at the place. Most fail at their first byte, so that is read once for all of them; where no byte
// stands, only a word without bytes does.
fn some_at<P: Page>(part: &PartOf<'_, P>, at: usize, words: &[&[u8]]) -> bool
    ensures { result ≡ some_begins (map (λ x. x.now) words.now) (drop at part.now) }
{
    match part.get(at) {
        Some(byte) => words
            .iter()
            .any(|word| may_begin(word, byte) && word_at(part, at, word)),
        None => words.iter().any(|word| word.is_empty()),
    }
}

// Whether one of the words occurs in a part, letter case counting.
pub fn has_word_of<P: Page>(part: &PartOf<'_, P>, words: &[&[u8]]) -> bool
    ensures value { result ≡ has_word (map (λ x. x.now) words.now) part.now }
    ensures occurs { Decides result (SomeWord (map (λ x. x.now) words.now) part.now) }
{
    (0..=part.len()).any(|at| some_at(part, at, words))
}
