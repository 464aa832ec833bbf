// Pages: ordered trees of numbered nodes, and the questions that every page answers.
#![tactic(auto)]

mod ask;
mod code;
mod height;
mod kind;
mod node;
mod page;

pub use ask::Ask;
pub use code::UnknownKind;
pub use height::{Height, walk_height};
pub use kind::{NodeKind, Part};
pub use node::{Children, Node};
pub use page::Page;
