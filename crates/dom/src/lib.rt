// Walks over any page: what stands under a node, measured.
#![tactic(auto)]

mod pass;
mod scan;
mod under;
mod walk;

pub use pass::Passes;
pub use under::{BLOCK_CHILD_TAGS, Under};
pub use walk::{fill_under, under_of};
