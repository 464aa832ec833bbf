ghost use Rattle.std.specs.Prelude.{◌≡◌, true};
ghost use Rattle.page.specs.Forest.{height_of};
ghost use Rattle.table.specs.Table.{tree_of};
ghost use Rattle.table.specs.Checks.{accepts};
ghost use Rattle.linked.specs.Records.{table_in, all_linked};

use crate::records::LinkedRecords;

// A page in linked records that were accepted, with its height. Each question takes constant time.
#[derive(Clone, Copy)]
pub struct LinkedPage<'a> {
    pub records: LinkedRecords<'a>,
    pub height: usize,
    ghost accepted: { accepts (table_in records) ≡ true },
    ghost linked: { all_linked records.nodes.now (table_in records) ≡ true },
    ghost tall: { height ≡ height_of (tree_of (table_in records)) },
}
