ghost use Rattle.std.specs.Prelude.{◌≡◌, ◌<◌, length};
ghost use Rattle.builder.specs.Refusals.{refused};
ghost use Rattle.builder.specs.Events.{attribute};
ghost use Rattle.builder.specs.After.{of_node, first_no, answer};
ghost use Rattle.builder.specs.Stored.{state_in};

use crate::refusal::BuildRefusal;
use crate::store::Store;
use table::Section;
use utf8::well_formed;

impl<'a> Store<'a> {
    // The questions of an event that gives a node.
    pub(crate) fn ask_node(&self, content: &[u8]) -> Result<(), BuildRefusal>
        requires { self.now.current < length self.now.nodes.items.now }
        ensures { refused result ≡ first_no (of_node (state_in self.now) content.now) }
    {
        if !self.nodes.has_room(1, Section::Nodes.most())
            || !self.bytes.has_room(content.len(), Section::Bytes.most())
        {
            return Err(BuildRefusal::Full);
        }
        if self.nodes.items[self.current].node.depth >= 62 {
            return Err(BuildRefusal::TooDeep);
        }
        if !well_formed(content) {
            return Err(BuildRefusal::IllFormed);
        }
        Ok(())
    }

    // The questions of an attribute.
    pub(crate) fn ask_attribute(&self, name: &[u8], value: &[u8]) -> Result<(), BuildRefusal>
        ensures { refused result ≡ answer (state_in self.now) (attribute name.now value.now) }
    {
        if !self.fresh {
            return Err(BuildRefusal::Misplaced);
        }
        if name.len() >= 65_536
            || value.len() >= 65_536
            || !self.attrs.has_room(1, Section::Attributes.most())
            || !self
                .bytes
                .has_room(name.len() + value.len(), Section::Bytes.most())
        {
            return Err(BuildRefusal::Full);
        }
        if !well_formed(name) || !well_formed(value) {
            return Err(BuildRefusal::IllFormed);
        }
        Ok(())
    }
}
