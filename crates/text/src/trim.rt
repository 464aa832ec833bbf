// Trimming: what is left of a text without the White_Space at its ends, measured as the text goes by.
ghost use Rattle.std.specs.Prelude.{◌≡◌, not, is_some};
ghost use Rattle.utf8.specs.Decode.{scalars_of};
ghost use Rattle.text.specs.Trim.{blank, trimmed_length, trimmed_bytes};
ghost use Rattle.text.specs.Trimming.{added, sum_of, trim_step, Trims};

use crate::machine::Machine;
use crate::part::PartOf;
use crate::space::is_space;
use page::Page;

// One figure of a trimmed text that has begun: its sum so far, and what the White_Space behind it will add if the text
// goes on.
#[derive(Clone, Copy)]
pub struct Trimmed {
    sum: usize,
    gap: usize,
}

// One character more, that adds so much to a figure.
#[inline(always)]
fn add(figure: &mut Option<Trimmed>, is_space: bool, by: usize)
    ensures { figure.new ≡ added figure.old is_space by }
{
    match figure {
        Some(f) if is_space => f.gap = f.gap.saturating_add(by),
        Some(f) => {
            f.sum = f.sum.saturating_add(f.gap).saturating_add(by);
            f.gap = 0;
        }
        None if is_space => {}
        None => *figure = Some(Trimmed { sum: by, gap: 0 }),
    }
}

// The length and the bytes of the trimmed text, once it has begun.
#[derive(Clone, Copy)]
pub struct Trim {
    chars: Option<Trimmed>,
    bytes: Option<Trimmed>,
}

impl Trim {
    pub fn new() -> Trim
        ensures { Trims result }
    {
        Trim {
            chars: None,
            bytes: None,
        }
    }

    // The length of the trimmed text.
    pub fn length(&self) -> usize
        ensures { result ≡ sum_of self.now.chars }
    {
        self.chars.map_or(0, |f| f.sum)
    }

    // The bytes of the trimmed text.
    pub fn size(&self) -> usize
        ensures { result ≡ sum_of self.now.bytes }
    {
        self.bytes.map_or(0, |f| f.sum)
    }

    // Whether nothing is left.
    pub fn is_blank(&self) -> bool
        ensures { result ≡ not (is_some self.now.chars) }
    {
        self.chars.is_none()
    }
}

impl Machine for Trim {
    ghost step = { trim_step };

    #[inline(always)]
    #[tactic(auto, unfolding(crate::specs::Trim::weight))]
    fn eat(&mut self, c: char) {
        let is_space = is_space(c);
        add(&mut self.chars, is_space, 1);
        add(&mut self.bytes, is_space, c.len_utf8());
    }
}

impl<'p, P: Page> PartOf<'p, P> {
    // The part, trimmed.
    pub fn trim(&self) -> Trim
        ensures chars { sum_of result.chars ≡ trimmed_length (scalars_of self.now) }
        ensures bytes { sum_of result.bytes ≡ trimmed_bytes (scalars_of self.now) }
        ensures blank { not (is_some result.chars) ≡ blank (scalars_of self.now) }
    {
        let mut trim = Trim::new();
        self.feed(&mut trim);
        trim
    }
}
