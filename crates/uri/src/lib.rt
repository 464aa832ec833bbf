// RFC 3986: the components of an address, and references resolved on a base.
#![tactic(auto)]

mod buffer;
mod compose;
mod dots;
mod parse;
mod resolution;
mod target;

pub use parse::{Components, split};
pub use resolution::{resolve, write_bytes};
