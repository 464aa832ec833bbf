// The text of a page.
#![tactic(auto)]

mod escape;
mod input;
mod line;
mod lines;
mod text;

pub use escape::{push_escaped, push_quoted};
pub use input::read_file;
pub use text::{outline, refusal_text};
