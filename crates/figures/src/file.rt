// The whole answer to a file.
ghost use Rattle.std.specs.Prelude.{◌≡◌, IfOk};
ghost use Rattle.page.specs.Forest.{Forest};
ghost use Rattle.table.specs.Fits.{Fits};
ghost use Rattle.pagefile.specs.Format.{encode};
ghost use Rattle.figures.specs.Points.{point_lines};
ghost use Rattle.figures.specs.Answer.{points_of};

use crate::lines::push_points;
use dom::{Under, fill_under};
use page::Page;
use pagefile::OpenedPage;
use render::refusal_text;
use std::alloc::{AllocError, Global};

// The figures of every element of any page, a line each, in document order. It fails only for want of memory.
pub fn page_points<P: Page>(heap: Global, p: &P) -> Result<Vec<u8>, AllocError>
    ensures { IfOk result (λ v. v.items ≡ point_lines (P.tree p.now)) }
{
    let mut table = vec![in heap; Under::none(); p.bound()]?;
    fill_under(p, table.as_mut_slice());
    let mut out = Vec::new(heap);
    push_points(heap, p, table.as_slice(), &mut out)?;
    Ok(out)
}

// The whole answer to a file: the lines of its page, or that of the refusal. It fails only for want of memory.
pub fn points(heap: Global, file: &[u8]) -> Result<Vec<u8>, AllocError>
    ensures answer { IfOk result (λ v. v.items ≡ points_of file.now) }
    ensures page { IfOk result (λ v. (t : Forest) → Fits t → file.now ≡ encode t → v.items ≡ point_lines t) }
{
    let mut page = OpenedPage::new();
    match page.open(file) {
        Ok(()) => page_points(heap, &page),
        Err(check) => refusal_text(heap, check),
    }
}
