ghost use Rattle.std.specs.Prelude.{◌≡◌, ℕ, ◌<◌, true, [], ◌∷◌, length};
ghost use Rattle.table.specs.declared.record.Section.TheVariants.{Nodes, Attributes, Bytes};
ghost use Rattle.table.specs.declared.record.Check.TheVariants.{CountInRange};
ghost use Rattle.table.specs.Checks.{each, first_no, of_node, refused};
ghost use Rattle.linked.specs.Records.{table_in, links_ok};
ghost use Rattle.linked.specs.Opening.{answer, verdict};

use crate::records::LinkedRecords;
use table::{Check, Records, Section, check_parts, check_place, ends_ok};

impl<'a> LinkedRecords<'a> {
    // The checks of the counts.
    fn check_counts(&self) -> Result<(), Check>
        ensures { refused result ≡ first_no (answer self.now.nodes.now (table_in self.now)) (CountInRange Nodes ∷ CountInRange Attributes ∷ CountInRange Bytes ∷ []) }
    {
        Section::Nodes.check_count(self.nodes())?;
        Section::Attributes.check_count(self.attrs())?;
        Section::Bytes.check_count(self.bytes())
    }

    // The checks of node i, where the links of those before match.
    fn check_node(&self, i: usize) -> Result<(), Check>
        requires before { each i (links_ok self.now.nodes.now (table_in self.now)) ≡ true }
        requires inside { i < length self.now.nodes.now }
        ensures { refused result ≡ first_no (answer self.now.nodes.now (table_in self.now)) (of_node i) }
    {
        check_place(self, i)?;
        if !self.links_ok(i) {
            return Err(Check::Depth(i));
        }
        check_parts(self, i)
    }

    // The first check that the records answer no. The loop is not `check_nodes` of `table` with a closure, since the check of a
    // node may only be called once those before passed.
    pub(crate) fn check(&self) -> Result<(), Check>
        ensures { refused result ≡ verdict self.now }
    {
        self.check_counts()?;
        let n = self.nodes.len();
        for i in 0..n {
            self.check_node(i)?;
        }
        if !ends_ok(self, n) {
            return Err(Check::SectionsEnd(n));
        }
        Ok(())
    }
}
