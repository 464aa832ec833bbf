ghost use Rattle.std.specs.Prelude.{◌≡◌, false};
ghost use Rattle.page.specs.Kinds.{is_document};
ghost use Rattle.builder.specs.Refusals.{refused};
ghost use Rattle.builder.specs.Events.{element, attribute, text, comment, doctype, close};
ghost use Rattle.builder.specs.After.{of_node, first_no, answer, with_node, unless, after};
ghost use Rattle.builder.specs.Built.{state_of};

use crate::build::Builder;
use crate::refusal::BuildRefusal;
use page::NodeKind;

impl<'a> Builder<'a> {
    // A node of any kind but the document's, under the innermost open one.
    fn node(&mut self, kind: NodeKind, content: &[u8]) -> Result<(), BuildRefusal>
        requires { is_document kind ≡ false }
        ensures answer { refused result ≡ first_no (of_node (state_of self.old) content.now) }
        ensures after { state_of self.new ≡ unless (first_no (of_node (state_of self.old) content.now)) (state_of self.old) (with_node (state_of self.old) kind content.now) }
    {
        self.store.ask_node(content)?;
        self.store.add_node(kind, content);
        Ok(())
    }

    // An element begins, and is open.
    pub fn element(&mut self, name: &[u8]) -> Result<(), BuildRefusal>
        ensures answer { refused result ≡ answer (state_of self.old) (element name.now) }
        ensures after { state_of self.new ≡ after (state_of self.old) (element name.now) }
    {
        let n = self.store.nodes.used;
        self.node(NodeKind::Element, name)?;
        self.store.current = n;
        self.store.last = None;
        self.store.fresh = true;
        Ok(())
    }

    // An attribute of the element just begun.
    pub fn attribute(&mut self, name: &[u8], value: &[u8]) -> Result<(), BuildRefusal>
        ensures answer { refused result ≡ answer (state_of self.old) (attribute name.now value.now) }
        ensures after { state_of self.new ≡ after (state_of self.old) (attribute name.now value.now) }
    {
        self.store.ask_attribute(name, value)?;
        self.store.add_attribute(name, value);
        Ok(())
    }

    pub fn text(&mut self, content: &[u8]) -> Result<(), BuildRefusal>
        ensures answer { refused result ≡ answer (state_of self.old) (text content.now) }
        ensures after { state_of self.new ≡ after (state_of self.old) (text content.now) }
    {
        self.node(NodeKind::Text, content)
    }

    pub fn comment(&mut self, content: &[u8]) -> Result<(), BuildRefusal>
        ensures answer { refused result ≡ answer (state_of self.old) (comment content.now) }
        ensures after { state_of self.new ≡ after (state_of self.old) (comment content.now) }
    {
        self.node(NodeKind::Comment, content)
    }

    pub fn doctype(&mut self, content: &[u8]) -> Result<(), BuildRefusal>
        ensures answer { refused result ≡ answer (state_of self.old) (doctype content.now) }
        ensures after { state_of self.new ≡ after (state_of self.old) (doctype content.now) }
    {
        self.node(NodeKind::Doctype, content)
    }

    // The innermost open element ends.
    pub fn close(&mut self) -> Result<(), BuildRefusal>
        ensures answer { refused result ≡ answer (state_of self.old) close }
        ensures after { state_of self.new ≡ after (state_of self.old) close }
    {
        let Some(parent) = self.store.nodes.items[self.store.current].parent else {
            return Err(BuildRefusal::Misplaced);
        };
        self.store.last = Some(self.store.current);
        self.store.current = usize::from(parent);
        self.store.fresh = false;
        Ok(())
    }
}
