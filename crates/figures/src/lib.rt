// The figures of every element of a page, as text.
#![tactic(auto)]

mod file;
mod line;
mod lines;

pub use file::{page_points, points};
