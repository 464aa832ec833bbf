// The opened page.
ghost use Rattle.std.specs.Prelude.{◌≡◌, true, length};
ghost use Rattle.page.specs.Forest.{height_of};
ghost use Rattle.table.specs.Table.{tree_of};
ghost use Rattle.table.specs.Checks.{accepts};
ghost use Rattle.pagefile.specs.File.{table_of};
ghost use Rattle.pagefile.specs.Links.{Parents, Ends};

use crate::link::Link;
use crate::sections::Sections;

// A page file that was accepted. Each node's parent, the end of what stands under it, and the height are computed once,
// so that every question takes constant time. The links are an array, since an `ArrayVec` is not `Copy` as a page is.
#[derive(Clone, Copy)]
pub struct OpenedPage<'a> {
    pub(crate) sections: Sections<'a>,
    pub(crate) links: [Link; 4096],
    pub(crate) height: usize,
    ghost accepted: { accepts (table_of sections.file.now) ≡ true },
    ghost many: { sections.counts.nodes ≡ length (table_of sections.file.now).nodes },
    ghost parents: { Parents (table_of sections.file.now) sections.counts.nodes links },
    ghost ends: { Ends (table_of sections.file.now) sections.counts.nodes links },
    ghost tall: { height ≡ height_of (tree_of (table_of sections.file.now)) },
}
