// A base, and values joined to it as references by RFC 3986.
#![tactic(auto)]

mod base;
mod fill;
mod joining;
mod refusal;

pub use base::Base;
pub use joining::{NoJoin, join, stays, write_value};
pub use refusal::BaseRefusal;
