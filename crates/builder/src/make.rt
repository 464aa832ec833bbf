ghost use Rattle.std.specs.Prelude.{◌≡◌, ℕ, ◌<◌, List, [], length, MatchResult, OnOk};
ghost use Rattle.linked.specs.Opened.{linked_tree};
ghost use Rattle.builder.specs.State.{used_nodes, used_attrs, used_bytes};
ghost use Rattle.builder.specs.Events.{Event};
ghost use Rattle.builder.specs.Refusals.{refused};
ghost use Rattle.builder.specs.Stored.{state_in};
ghost use Rattle.builder.specs.Built.{state_of, built_tree};
ghost use Rattle.builder.specs.Law.{begun, begin_answer, Law};

use crate::build::Builder;
use crate::lent::Lent;
use crate::refusal::BuildRefusal;
use crate::store::Store;
use linked::{LinkedNode, LinkedPage, LinkedRecords};
use table::AttrRecord;

// A store in which the document has taken the first record.
fn begin<'a>(
    nodes: &'a mut [LinkedNode],
    attrs: &'a mut [AttrRecord],
    bytes: &'a mut [u8],
) -> Store<'a>
    requires { 0 < length nodes.old }
    ensures { state_in result ≡ begun nodes.old attrs.old bytes.old }
{
    let mut nodes = Lent::new(nodes);
    nodes.push(LinkedNode::DOCUMENT);
    Store {
        nodes,
        attrs: Lent::new(attrs),
        bytes: Lent::new(bytes),
        height: 0,
        current: 0,
        last: None,
        fresh: false,
    }
}

impl<'a> Builder<'a> {
    // A builder over one lent record, which the document takes.
    pub fn new(first: &'a mut [LinkedNode; 1]) -> Builder<'a>
        ensures state { state_of result ≡ begun first.old [] [] }
        ensures law { (es : List Event) → Law (state_of result) es }
    {
        Builder {
            store: begin(first, &mut [], &mut []),
        }
    }
    // Begins again over lent records, of which the document takes the first, or stays as it is where there is none.
    pub fn over(
        &mut self,
        nodes: &'a mut [LinkedNode],
        attrs: &'a mut [AttrRecord],
        bytes: &'a mut [u8],
    ) -> Result<(), BuildRefusal>
        ensures answer { refused result ≡ begin_answer nodes.old }
        ensures state { MatchResult result (λ _. state_of self.new ≡ begun nodes.old attrs.old bytes.old) (λ _. self.new ≡ self.old) }
        ensures law { OnOk result ((es : List Event) → Law (state_of self.new) es) }
    {
        if nodes.is_empty() {
            return Err(BuildRefusal::Full);
        }
        *self = Builder {
            store: begin(nodes, attrs, bytes),
        };
        Ok(())
    }

    // The page that is built so far.
    pub fn page(&self) -> LinkedPage<'_>
        ensures nodes { result.records.nodes.now ≡ used_nodes (state_of self.now) }
        ensures attrs { result.records.attrs.now ≡ used_attrs (state_of self.now) }
        ensures bytes { result.records.bytes.now ≡ used_bytes (state_of self.now) }
        ensures tree { linked_tree result ≡ built_tree (state_of self.now) }
    {
        let records = LinkedRecords {
            nodes: self.store.nodes.used_items(),
            attrs: self.store.attrs.used_items(),
            bytes: self.store.bytes.used_items(),
        };
        let height = self.store.height;
        LinkedPage { records, height }
    }
}
