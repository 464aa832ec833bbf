// A builder that fills linked records from a parser's events.
#![tactic(auto)]

mod add;
mod ask;
mod build;
mod events;
mod lent;
mod make;
mod refusal;
mod store;

pub use build::Builder;
pub use refusal::BuildRefusal;
