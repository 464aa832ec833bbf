// Qualifying, and the content score.
ghost use Rattle.std.specs.Prelude.{◌≡◌, ◌+◌, ◌/◌, ◌≤◌, min, true, length};
ghost use Rattle.utf8.specs.Decode.{scalars_of};
ghost use Rattle.page.specs.Forest.{find, kids_of};
ghost use Rattle.text.specs.Marks.{Matches};
ghost use Rattle.dom.specs.Deep.{deep};
ghost use Rattle.scorer.specs.Content.{qualifies_by, score_by, qualifies_in, content_score, Scored};

use dom::{Under, under_of};
use names::{Tag, tag_of};
use page::Page;

// The tags that qualify where no element makes a block of them.
const TEXT_TAGS: [Tag; 4] = [Tag::Div, Tag::Article, Tag::Center, Tag::Section];

// Whether a node of this tag qualifies, by the figures of what is under it.
pub fn qualifies_by(tag: Tag, under: &Under) -> bool
    ensures { result ≡ qualifies_by tag under.now }
{
    under.text >= 20 && (Tag::P.is(tag) || tag.is_among(&TEXT_TAGS) && !under.block)
}

// The content score, by the figures of what is under a node.
pub fn content_score_by(under: &Under) -> usize
    ensures { result ≡ score_by under.now }
{
    under
        .marks
        .plain
        .count()
        .saturating_add(1)
        .saturating_add((under.chars / 100).min(3))
}

// Whether n qualifies: at least 20 in trimmed length under it, and a p, or a div, article, center or section with no
// element below that makes a block of it.
pub fn qualifies<P: Page>(p: &P, n: usize) -> bool
    ensures { result ≡ qualifies_in (find (P.tree p.now) n) }
{
    qualifies_by(tag_of(p, n), &under_of(p, n))
}

// The content score of what is under n.
pub fn content_score<P: Page>(p: &P, n: usize) -> usize
    ensures value { result ≡ content_score (find (P.tree p.now) n) }
    ensures matches { Scored (scalars_of (deep (kids_of (find (P.tree p.now) n)))) result }
{
    content_score_by(&under_of(p, n))
}
