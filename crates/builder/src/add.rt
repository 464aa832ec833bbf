ghost use Rattle.std.specs.Prelude.{◌≡◌};
ghost use Rattle.builder.specs.After.{with_node, with_attr};
ghost use Rattle.builder.specs.Room.{NodeRoom, AttrRoom};
ghost use Rattle.builder.specs.Stored.{state_in};

use crate::store::Store;
use linked::LinkedNode;
use page::NodeKind;
use table::{AttrRecord, NodeRecord};

impl<'a> Store<'a> {
    // One node more under the innermost open one, entered in the record of its previous sibling or of its parent.
    pub(crate) fn add_node(&mut self, kind: NodeKind, content: &[u8])
        requires { NodeRoom (state_in self.old) content.now }
        ensures { state_in self.new ≡ with_node (state_in self.old) kind content.now }
    {
        let at = self.bytes.used;
        self.bytes.extend_from_slice(content);
        let n = self.nodes.used;
        let parent = self.current;
        let depth = self.nodes.items[parent].node.depth + 1;
        match self.last {
            None => self.nodes.items[parent].first_child = Some(n as u16),
            Some(q) => self.nodes.items[q].next_sibling = Some(n as u16),
        }
        // each length fits its field by the room that is asked, so the casts lose nothing and no conversion can fail
        self.nodes.push(LinkedNode {
            node: NodeRecord {
                kind: u8::from(kind),
                depth,
                attrs: 0,
                first: self.attrs.used as u32,
                start: at as u32,
                len: content.len() as u32,
            },
            parent: Some(parent as u16),
            first_child: None,
            next_sibling: None,
        });
        self.height = self.height.max(usize::from(depth));
        self.last = Some(n);
        self.fresh = false;
    }

    // One attribute more of the innermost open node, its name and value behind all other bytes.
    pub(crate) fn add_attribute(&mut self, name: &[u8], value: &[u8])
        requires { AttrRoom (state_in self.old) name.now value.now }
        ensures { state_in self.new ≡ with_attr (state_in self.old) name.now value.now }
    {
        let at = self.bytes.used;
        self.bytes.extend_from_slice(name);
        self.bytes.extend_from_slice(value);
        self.nodes.items[self.current].node.attrs += 1;
        // the lengths fit their fields by the room that is asked, so the casts lose nothing
        self.attrs.push(AttrRecord {
            name: name.len() as u16,
            value: value.len() as u16,
            start: at as u32,
        });
        self.fresh = true;
    }
}
