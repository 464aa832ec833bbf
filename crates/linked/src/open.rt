ghost use Rattle.std.specs.Prelude.{◌≡◌, MatchResult};
ghost use Rattle.table.specs.Table.{tree_of};
ghost use Rattle.table.specs.Checks.{refused};
ghost use Rattle.linked.specs.Records.{table_in};
ghost use Rattle.linked.specs.Opening.{verdict};
ghost use Rattle.linked.specs.Opened.{linked_tree, document_alone};

use crate::accepted::LinkedPage;
use crate::node::LinkedNode;
use crate::records::LinkedRecords;
use table::{Check, stored_height};

// The records of the document alone.
const DOCUMENT: [LinkedNode; 1] = [LinkedNode::DOCUMENT];

impl<'a> LinkedPage<'a> {
    // A page that is the document alone.
    pub fn new() -> LinkedPage<'a>
        ensures { linked_tree result ≡ document_alone }
    {
        LinkedPage {
            records: LinkedRecords {
                nodes: &DOCUMENT,
                attrs: &[],
                bytes: &[],
            },
            height: 0,
        }
    }

    // Fills the page from records that anybody filled, or leaves it as it is and answers the first check that they fail.
    pub fn open(&mut self, records: LinkedRecords<'a>) -> Result<(), Check>
        ensures verdict { refused result ≡ verdict records.entry }
        ensures page { MatchResult result (λ _. linked_tree self.new ≡ tree_of (table_in records.entry)) (λ _. self.new ≡ self.old) }
    {
        records.check()?;
        let height = stored_height(&records);
        *self = LinkedPage { records, height };
        Ok(())
    }
}
