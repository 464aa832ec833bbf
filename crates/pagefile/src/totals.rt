// The counts of an opened page.
ghost use Rattle.std.specs.Prelude.{◌≡◌};
ghost use Rattle.page.specs.Forest.{size};
ghost use Rattle.table.specs.Fits.{attr_total, byte_total};
ghost use Rattle.pagefile.specs.Opened.{opened_tree};

use crate::counts::Counts;
use crate::opened::OpenedPage;

impl<'a> OpenedPage<'a> {
    // How many nodes, attributes and bytes the page has.
    pub fn counts(&self) -> Counts
        ensures nodes { result.nodes ≡ size (opened_tree self.now) }
        ensures attrs { result.attrs ≡ attr_total (opened_tree self.now) }
        ensures bytes { result.bytes ≡ byte_total (opened_tree self.now) }
    {
        self.sections.counts
    }
}
