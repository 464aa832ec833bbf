// Score kinds: what they settle, the laws that each shows, and the one search for the first greatest score.
#![tactic(auto)]

mod kind;
mod points;
mod search;

pub use kind::ScoreKind;
pub use points::Points;
pub use search::{exceeds_zero, first_greatest, top_candidate};
