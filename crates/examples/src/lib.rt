// Worked examples, each proved of the definitions that the contracts cite.
#![tactic(auto)]

mod joins;
mod pages;
mod scores;
mod worth;

pub use joins::joined_base;
pub use pages::document_file;
pub use scores::{exact_scores, greatest_of_two};
pub use worth::least_length;
