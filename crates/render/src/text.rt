// The whole answer to a file.
ghost use Rattle.std.specs.Prelude.{◌≡◌, IfOk};
ghost use Rattle.page.specs.Forest.{Forest};
ghost use Rattle.table.specs.Fits.{Fits};
ghost use Rattle.pagefile.specs.Format.{encode};
ghost use Rattle.pagefile.specs.Opened.{opened_tree};
ghost use Rattle.render.specs.Render.{header, render};
ghost use Rattle.render.specs.Outline.{refusal_text, outline_of};

use crate::lines::push_lines;
use pagefile::{Counts, OpenedPage};
use std::alloc::{AllocError, Global};
use table::Check;

// The line of a refusal. It fails only for want of memory.
pub fn refusal_text(heap: Global, check: Check) -> Result<Vec<u8>, AllocError>
    ensures { IfOk result (λ v. v.items ≡ refusal_text check) }
{
    Ok(format!(in heap; "refused {} {}\n", check.number(), check.record())?.into_bytes())
}

// The header of a page with these counts.
fn header_text(heap: Global, counts: Counts) -> Result<Vec<u8>, AllocError>
    ensures { IfOk result (λ v. v.items ≡ header counts.nodes counts.attrs counts.bytes) }
{
    let mut text = format!(in heap;
        "# {} nodes, {} attributes, {} bytes\n",
        counts.nodes, counts.attrs, counts.bytes
    )?
    .into_bytes();
    // The answer grows by doubling this memory. Begun with the string's spare bytes too, some answers took half as much memory again.
    text.shrink_to_fit();
    Ok(text)
}

// The text of an opened page.
fn page_text(heap: Global, page: &OpenedPage) -> Result<Vec<u8>, AllocError>
    ensures { IfOk result (λ v. v.items ≡ render (opened_tree page.now)) }
{
    let mut out = header_text(heap, page.counts())?;
    push_lines(page, &mut out)?;
    Ok(out)
}

// The whole answer to a file: the text of its page, or the line of the refusal. It fails only for want of memory.
pub fn outline(heap: Global, file: &[u8]) -> Result<Vec<u8>, AllocError>
    ensures answer { IfOk result (λ v. v.items ≡ outline_of file.now) }
    ensures page { IfOk result (λ v. (t : Forest) → Fits t → file.now ≡ encode t → v.items ≡ render t) }
{
    let mut page = OpenedPage::new();
    match page.open(file) {
        Ok(()) => page_text(heap, &page),
        Err(check) => refusal_text(heap, check),
    }
}
