// A stored page as records in document order: the checks that they have to pass, and the tree that they mean.
#![tactic(auto)]

mod checks;
mod record;
mod records;
mod refusal;
mod stored;

pub use checks::{
    check_node, check_nodes, check_parts, check_place, depth_ok, ends_ok, formed_ok, kind_ok,
    layout_ok,
};
pub use record::{AttrRecord, Check, NodeRecord, Section};
pub use records::{Records, clamped};
pub use stored::{Reader, stored_height};
