// Opening a page file.
ghost use Rattle.std.specs.Prelude.{◌≡◌, MatchResult};
ghost use Rattle.table.specs.Table.{tree_of};
ghost use Rattle.table.specs.Checks.{refused};
ghost use Rattle.pagefile.specs.File.{table_of};
ghost use Rattle.pagefile.specs.Opening.{verdict};
ghost use Rattle.pagefile.specs.Opened.{opened_tree, document_alone, FileOf, NoFile};

use crate::check::check;
use crate::counts::Counts;
use crate::link::Link;
use crate::opened::OpenedPage;
use crate::sections::Sections;
use table::{Check, stored_height};

// The file of the document alone: one node of 16 bytes, no attributes, no bytes.
const DOCUMENT: &[u8; 28] = b"\x01\0\0\0\0\0\0\0\0\0\0\0\0\0\0\0\0\0\0\0\0\0\0\0\0\0\0\0";

impl<'a> OpenedPage<'a> {
    // A page that is the document alone.
    pub fn new() -> OpenedPage<'a>
        ensures { opened_tree result ≡ document_alone }
    {
        let counts = Counts {
            nodes: 1,
            attrs: 0,
            bytes: 0,
        };
        OpenedPage {
            sections: Sections::over(DOCUMENT, counts),
            links: [Link::BLANK; 4096],
            height: 0,
        }
    }

    // Fills the page from a file, or leaves it as it is and answers the first check that the file fails.
    pub fn open(&mut self, file: &'a [u8]) -> Result<(), Check>
        ensures verdict { refused result ≡ verdict file.now }
        ensures page { MatchResult result (λ _. opened_tree self.new ≡ tree_of (table_of file.now)) (λ _. self.new ≡ self.old) }
        ensures exactly { MatchResult result (λ _. FileOf file.now (opened_tree self.new)) (λ _. NoFile file.now) }
    {
        let counts = check(file)?;
        let sections = Sections::over(file, counts);
        let mut links = [Link::BLANK; 4096];
        sections.link(&mut links);
        let height = stored_height(&sections);
        *self = OpenedPage {
            sections,
            links,
            height,
        };
        Ok(())
    }
}
