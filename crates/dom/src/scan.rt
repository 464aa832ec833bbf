// One reading of a text for all of its figures.
ghost use Rattle.std.specs.Prelude.{◌≡◌};
ghost use Rattle.utf8.specs.Decode.{scalars_of};
ghost use Rattle.page.specs.Forest.{find};
ghost use Rattle.page.specs.declared.kind.Part.TheVariants.{Content};
ghost use Rattle.text.specs.Held.{held};
ghost use Rattle.dom.specs.Scan.{scan_step};
ghost use Rattle.dom.specs.Under.{leaf_of};

use crate::pass::Passes;
use crate::under::Under;
use page::{Page, Part};
use text::{Machine, PartOf, Trim};

// Trimming, counting, and the punctuation from each state, all at once.
#[derive(Clone, Copy)]
pub struct Scan {
    trim: Trim,
    chars: usize,
    marks: Passes,
}

impl Machine for Scan {
    ghost step = { scan_step };

    fn eat(&mut self, c: char) {
        self.trim.eat(c);
        self.chars = self.chars.saturating_add(1);
        self.marks.eat(c);
    }
}

// The figures of the content of a node alone.
pub(crate) fn leaf_of<P: Page>(p: &P, n: usize) -> Under
    ensures { result ≡ leaf_of (scalars_of (held (P.tree p.now) n Content)) }
{
    let mut scan = Scan {
        trim: Trim::new(),
        chars: 0,
        marks: Passes::none(),
    };
    PartOf::new(p, n, Part::Content).feed(&mut scan);
    Under {
        text: scan.trim.length(),
        chars: scan.chars,
        marks: scan.marks,
        long: usize::from(scan.trim.size() >= 20),
        ..Under::none()
    }
}
