// The characters of a page's parts, and the machines that measure them.
#![tactic(auto)]

mod machine;
mod marks;
mod part;
mod space;
mod trim;

pub use machine::Machine;
pub use marks::{Marks, State};
pub use part::{Chars, PartOf};
pub use space::is_space;
pub use trim::{Trim, Trimmed};
