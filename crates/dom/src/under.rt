// The figures of what stands under a node.
ghost use Rattle.std.specs.Prelude.{◌≡◌};
ghost use Rattle.page.specs.Forest.{none as no_forest};
ghost use Rattle.dom.specs.Under.{under_of, plus, element_of};
ghost use Rattle.dom.specs.Small.{Small};

use crate::pass::Passes;
use names::Tag;

// The elements that make a block of what is around them.
pub const BLOCK_CHILD_TAGS: [Tag; 10] = [
    Tag::Anchor,
    Tag::Blockquote,
    Tag::Dl,
    Tag::Div,
    Tag::Img,
    Tag::Ol,
    Tag::P,
    Tag::Pre,
    Tag::Table,
    Tag::Ul,
];

#[derive(Clone, Copy)]
pub struct Under {
    // The trimmed lengths of the texts, summed.
    pub text: usize,
    // Those of every a element, nested ones again.
    pub links: usize,
    // The characters and the punctuation of the deep text.
    pub chars: usize,
    pub marks: Passes,
    // Whether an element makes it a block.
    pub block: bool,
    // How many p, img, li, input and embed elements there are.
    pub paragraphs: usize,
    pub images: usize,
    pub items: usize,
    pub inputs: usize,
    pub embeds: usize,
    // Text children of at least 20 trimmed bytes.
    pub long: usize,
}

impl Under {
    // Nothing. A derived `Default` would not do: the counter of each state begins in that state.
    pub fn none() -> Under
        ensures { result ≡ under_of no_forest }
    {
        Under {
            text: 0,
            links: 0,
            chars: 0,
            marks: Passes::none(),
            block: false,
            paragraphs: 0,
            images: 0,
            items: 0,
            inputs: 0,
            embeds: 0,
            long: 0,
        }
    }

    // These figures, and then the next.
    pub(crate) fn plus(&self, next: &Under) -> Under
        requires { Small (plus self.now next.now) }
        ensures { result ≡ plus self.now next.now }
    {
        Under {
            text: self.text + next.text,
            links: self.links + next.links,
            chars: self.chars + next.chars,
            marks: self.marks.then(&next.marks),
            block: self.block || next.block,
            paragraphs: self.paragraphs + next.paragraphs,
            images: self.images + next.images,
            items: self.items + next.items,
            inputs: self.inputs + next.inputs,
            embeds: self.embeds + next.embeds,
            long: self.long + next.long,
        }
    }

    // The figures of an element over these.
    pub(crate) fn in_element(&self, tag: Tag) -> Under
        requires { Small (element_of tag self.now) }
        ensures { result ≡ element_of tag self.now }
    {
        let linked = if Tag::Anchor.is(tag) { self.text } else { 0 };
        Under {
            links: linked + self.links,
            block: tag.is_among(&BLOCK_CHILD_TAGS) || self.block,
            paragraphs: usize::from(Tag::P.is(tag)) + self.paragraphs,
            images: usize::from(Tag::Img.is(tag)) + self.images,
            items: usize::from(Tag::Li.is(tag)) + self.items,
            inputs: usize::from(Tag::Input.is(tag)) + self.inputs,
            embeds: usize::from(Tag::Embed.is(tag)) + self.embeds,
            long: 0,
            ..*self
        }
    }
}
