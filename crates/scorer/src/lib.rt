// What a node is worth: whether it qualifies, its content score, its weight and its starting points.
#![tactic(auto)]

mod content;
mod weight;

pub use content::{content_score, content_score_by, qualifies, qualifies_by};
pub use weight::{get_class_weight, starting_points};
